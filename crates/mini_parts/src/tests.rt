use super::*;
use mini_portals::{BoundStmt, Portals};
use mini_store::{Answer, Op, Past, PastStep};
use pgw_frames::{NoMemory, Text};
use pgw_messages::Items;
use session_blob::{State, Statements, Variables};
use session_model::Dump;
use sql_text::Stmt;
use std::alloc::Global;
use std::test::*;

/// User `u`, database `d`, the variable `x` = `5`, and no statement.
const BLOB: [u8; 25] = [
    1, 0, 0, 0, 1, 117, 0, 0, 0, 1, 100, 0, 1, 0, 0, 0, 1, 120, 0, 0, 0, 1, 53, 0, 0,
];

/// The session of that blob, with an unnamed statement, an unnamed portal, and a transaction where one is asked for.
fn session(alloc: Global, turn: Option<Turn>) -> Result<Parts, NoMemory> {
    let mut kept = State {
        user: Text::of(alloc, "u")?,
        database: Text::of(alloc, "d")?,
        variables: Variables::new(alloc),
        statements: Statements::new(alloc),
    };
    kept.variables.put("x", "5")?;
    kept.statements.put("", "COMMIT", &[])?;
    let mut portals = Portals::new(alloc);
    let bound = BoundStmt {
        stmt: Stmt::Commit,
        texts: Items::new(alloc),
    };
    portals.put("", bound)?;
    Ok(Parts {
        kept,
        token: Text::of(alloc, "dG9r")?,
        portals,
        turn,
        mode: Mode::Usual,
    })
}

/// A transaction with one step.
fn turn(alloc: Global) -> Result<Turn, NoMemory> {
    let table = Text::of(alloc, "t")?;
    let mut past = Past::new(alloc);
    past.push(PastStep {
        op: Op::Shape { table },
        answer: Answer::Made,
    })?;
    Ok(Turn {
        past,
        failed: false,
    })
}

/// Whether all that a session has by itself is seen.
fn sees_all(view: &View<'_>) -> bool {
    let named = view.is_user("u") && view.is_database("d") && view.token() == "dG9r";
    let found = view.portal("").is_some() && view.statement("").is_some();
    named && found && view.has_statement("") && view.variable("x") == Some("5") && !view.is_quiet()
}

/// What is seen of the session outside a transaction: all of it, nothing that a Query drops, and then the blob.
fn seen(alloc: Global) -> Result<(bool, bool, bool), NoMemory> {
    let parts = session(alloc, None)?;
    let view = View::of(&parts);
    let dropped = view.dropping(true);
    let gone = dropped.statement("").is_none() && !dropped.has_statement("") && dropped.is_quiet();
    let blob = match dropped.dump(alloc)? {
        Dump::Blob(blob) => blob.as_slice() == BLOB.as_slice(),
        Dump::Not(_) => false,
    };
    Ok((sees_all(&view), gone && dropped.portal("").is_none(), blob))
}

#[test]
fn what_a_query_sees(rt: HostRuntime) {
    assert_eq!(rt; seen(rt.alloc()), Ok((true, true, true)));
}

/// The status outside a transaction, inside one, and behind an error.
fn statuses(alloc: Global) -> Result<[u8; 3], NoMemory> {
    let idle = session(alloc, None)?;
    let busy = session(alloc, Some(turn(alloc)?))?;
    let view = View::behind(&busy, false, true);
    let inside = view.in_turn() && !view.has_failed() && view.past().map(|p| p.len()) == Some(1);
    let failed = view.failing();
    let status = if inside && failed.has_failed() {
        failed.status()
    } else {
        0
    };
    Ok([View::of(&idle).status(), view.status(), status])
}

#[test]
fn statuses_of_a_transaction(rt: HostRuntime) {
    assert_eq!(rt; statuses(rt.alloc()), Ok([b'I', b'T', b'E']));
}
