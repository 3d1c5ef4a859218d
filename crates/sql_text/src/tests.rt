use super::*;
use std::alloc::Global;
use std::process::Abort;
use std::test::*;

/// Whether it is read, and printed so.
fn prints(alloc: Global, sql: &str, want: &str) -> Result<bool, SqlFault> {
    let stmt = read_sql(alloc, sql)?;
    let printed = print_sql(alloc, &stmt);
    drop(stmt);
    Ok(printed?.as_str() == want)
}

/// Why it is no statement, or that it is one.
fn fault(alloc: Global, sql: &str) -> Option<SqlFault> {
    read_sql(alloc, sql).err()
}

/// How many tokens it has.
fn token_count(alloc: Global, sql: &str) -> Result<usize, SqlFault> {
    Ok(tokens(alloc, sql)?.len())
}

#[test]
fn statements_as_they_are_printed(rt: HostRuntime) {
    let rows = [
        (
            "insert into T values (1,'it''s');",
            "INSERT INTO t VALUES (1, 'it''s')",
        ),
        (
            "create table T(K int,v TEXT)",
            "CREATE TABLE t (k INT, v TEXT)",
        ),
        ("cReAtE tAbLe t ( c iNt )", "CREATE TABLE t (c INT)"),
        ("select*from t", "SELECT * FROM t"),
        (
            "select a , B from t where c=-1;",
            "SELECT a, b FROM t WHERE c = -1",
        ),
        (
            "update t set a=$9 where b = ''",
            "UPDATE t SET a = $9 WHERE b = ''",
        ),
        ("update t set a='é'", "UPDATE t SET a = 'é'"),
        ("delete from t", "DELETE FROM t"),
        ("delete from t where a=00", "DELETE FROM t WHERE a = 0"),
        ("set X to ''''", "SET x = ''''"),
        ("set x = '; -- \\ '", "SET x = '; -- \\ '"),
        ("SET x=-9223372036854775808", "SET x = -9223372036854775808"),
        ("SET x=9223372036854775807", "SET x = 9223372036854775807"),
        ("SET x = $1", "SET x = $1"),
        ("show transfer", "SHOW transfer"),
        ("begin;", "BEGIN"),
        ("Commit", "COMMIT"),
        ("rollback\n;", "ROLLBACK"),
        ("copy t from stdin", "COPY t FROM STDIN"),
        (";", ""),
        ("", ""),
        ("\t ", ""),
        (
            "show transfer state with'00112233445566778899aabbccddeeff'",
            "SHOW TRANSFER STATE WITH '00112233445566778899aabbccddeeff'",
        ),
        (
            "select crdb_internal.deserialize_session(decode('a''=','base64'))",
            "SELECT crdb_internal.deserialize_session(decode('a''=','base64'))",
        ),
        (
            "select crdb_internal from select",
            "SELECT crdb_internal FROM select",
        ),
        (
            "select from from from where from=1",
            "SELECT from FROM from WHERE from = 1",
        ),
        (
            "create table create (int int, text text)",
            "CREATE TABLE create (int INT, text TEXT)",
        ),
        ("set set = 1", "SET set = 1"),
        (
            "select a,b,c,d,e,f,g,h,i,j,k,l,m,n,o,p from t",
            "SELECT a, b, c, d, e, f, g, h, i, j, k, l, m, n, o, p FROM t",
        ),
    ];
    for (sql, text) in rows {
        assert_eq!(rt; prints(rt.alloc(), sql, text), Ok(true), "at {sql}");
        assert_eq!(rt; prints(rt.alloc(), text, text), Ok(true), "again {sql}");
    }
}

#[test]
fn faults(rt: HostRuntime) {
    let rows = [
        ("SELECT 1", SqlFault::BadSyntax(7)),
        ("SELECT", SqlFault::BadSyntax(6)),
        ("SELECT # FROM t", SqlFault::BadToken(7)),
        (
            "INSERT INTO t VALUES (9223372036854775808)",
            SqlFault::NumberRange(22),
        ),
        (
            "INSERT INTO t VALUES (-9223372036854775809)",
            SqlFault::NumberRange(22),
        ),
        ("SELECT 1 #", SqlFault::BadToken(9)),
        (";;", SqlFault::BadSyntax(1)),
        ("SHOW x;;", SqlFault::BadSyntax(7)),
        ("SHOW x y", SqlFault::BadSyntax(7)),
        ("SET x = $10", SqlFault::BadSyntax(10)),
        ("SET x = $255", SqlFault::BadSyntax(10)),
        ("SET x = $256", SqlFault::BadSyntax(10)),
        ("SET x = $0", SqlFault::BadToken(8)),
        ("SET x = +5", SqlFault::BadToken(8)),
        ("SET x = - 5", SqlFault::BadToken(8)),
        ("SET x = 1a", SqlFault::BadSyntax(9)),
        ("SET x = 'a''", SqlFault::BadToken(8)),
        ("SET x = '", SqlFault::BadToken(8)),
        ("SET é = 1", SqlFault::BadToken(4)),
        ("SET x = 1\r", SqlFault::BadToken(9)),
        ("INSERT INTO t VALUES ()", SqlFault::BadSyntax(22)),
        ("INSERT INTO t VALUES (1,)", SqlFault::BadSyntax(24)),
        ("SELECT a, crdb_internal.b FROM t", SqlFault::BadSyntax(23)),
        ("SHOW TRANSFER STATE", SqlFault::BadSyntax(19)),
        ("SHOW TRANSFER STATE WITH '0011'", SqlFault::BadSyntax(25)),
        (
            "SHOW TRANSFER STATE WITH '00112233445566778899AABBCCDDEEFF'",
            SqlFault::BadSyntax(25),
        ),
        (
            "SELECT crdb_internal.deserialize_session(decode('','BASE64'))",
            SqlFault::BadSyntax(51),
        ),
        (
            "SELECT a,b,c,d,e,f,g,h,i,j,k,l,m,n,o,p,q FROM t",
            SqlFault::BadSyntax(39),
        ),
        (
            "SHOW a123456789b123456789c123456789d123456789e123456789f123456789g123",
            SqlFault::BadToken(5),
        ),
    ];
    for (sql, want) in rows {
        assert_eq!(rt; fault(rt.alloc(), sql), Some(want), "at {sql}");
    }
}

/// Cuts it behind each space. Only the beginning with so many tokens is a statement, and the whole.
fn end_behind(rt: &impl Abort, alloc: Global, sql: &str, whole: usize) {
    let mut count = 0usize;
    for (place, byte) in sql.bytes().enumerate() {
        if byte == b' ' {
            count = count.wrapping_add(1);
            let cut = sql.get(..=place).unwrap_or("");
            let end = SqlFault::BadSyntax(u32::try_from(cut.len()).unwrap_or(0));
            let want = if count == whole { None } else { Some(end) };
            assert_eq!(rt; fault(alloc, cut), want, "at {cut}");
        }
    }
    assert_eq!(rt; fault(alloc, sql), None, "at {sql}");
    assert_eq!(rt;
        token_count(alloc, sql),
        Ok(count.wrapping_add(1)),
        "at {sql}"
    );
}

#[test]
fn a_form_that_ends_behind_a_token(rt: HostRuntime) {
    // Each form in full. In front of its end no other statement ends but where the row says so.
    let rows = [
        ("CREATE TABLE t ( c INT , d TEXT )", 0),
        ("INSERT INTO t VALUES ( 1 , 'a' , $1 )", 0),
        ("SELECT a , b FROM t WHERE c = 1", 6),
        ("UPDATE t SET c = 1 WHERE d = 2", 6),
        ("DELETE FROM t WHERE c = 1", 3),
        ("SET x = 1", 0),
        ("SET x TO 1", 0),
        ("SHOW x", 0),
        ("COPY t FROM STDIN", 0),
        (
            "SHOW TRANSFER STATE WITH '00112233445566778899aabbccddeeff'",
            2,
        ),
        (
            "SELECT crdb_internal . deserialize_session ( decode ( '' , 'base64' ) )",
            0,
        ),
    ];
    for (sql, whole) in rows {
        end_behind(&rt, rt.alloc(), sql, whole);
    }
}

#[test]
fn numbers(rt: HostRuntime) {
    let rows = [
        ("0", Some(0)),
        ("-0", Some(0)),
        ("007", Some(7)),
        ("9223372036854775807", Some(i64::MAX)),
        ("-9223372036854775808", Some(i64::MIN)),
        ("9223372036854775808", None),
        ("-9223372036854775809", None),
        ("+5", None),
        (" 5", None),
        ("5 ", None),
        ("-", None),
        ("", None),
    ];
    for (text, number) in rows {
        assert_eq!(rt; read_number(text), number, "at {text}");
    }
}
