use super::*;
use std::alloc::Global;
use std::test::*;

/// User `u`, database `d`, the variable `x` = `5`, and no statement.
const ROW: [u8; 25] = [
    1, 0, 0, 0, 1, 117, 0, 0, 0, 1, 100, 0, 1, 0, 0, 0, 1, 120, 0, 0, 0, 1, 53, 0, 0,
];

/// What is told of these bytes.
fn fault_of(alloc: Global, blob: &[u8]) -> Option<BlobFault> {
    match decode(alloc, blob) {
        Ok(state) => {
            drop(state);
            None
        }
        Err(fault) => Some(fault),
    }
}

/// The text of the statement of this name.
fn query<'a>(statements: &'a Statements, name: &str) -> Option<&'a str> {
    let found = statements.get(name)?;
    Some(found.query.as_str())
}

#[test]
fn a_state_is_read(rt: HostRuntime) -> Result<(), Fail> {
    let mut s = decode(rt.alloc(), &ROW)?;
    assert_eq!(rt; s.user.as_str(), "u");
    assert_eq!(rt; s.database.as_str(), "d");
    assert_eq!(rt; (s.variables.len(), s.variables.has("x")), (1, true));
    assert_eq!(rt; (s.statements.len(), s.statements.has("")), (0, false));
    s.statements.put("", "SELECT $1", &[25])?;
    s.variables.put("x", "6")?;
    assert_eq!(rt; (s.variables.len(), s.statements.has("")), (1, true));
    assert_eq!(rt;
        (s.variables.get("x"), s.variables.get("")),
        (Some("6"), None)
    );
    assert_eq!(rt; query(&s.statements, ""), Some("SELECT $1"));
    assert_eq!(rt; s.statements.at(0).map(|(name, _)| name), Some(""));
    s.statements.remove("x");
    assert_eq!(rt; (s.statements.len(), query(&s.statements, "x")), (1, None));
    s.statements.remove("");
    assert_eq!(rt; s.statements.has(""), false);
    Ok(())
}

/// Whether the state's bytes are those of the row, and so without its statements once it has one, and whether with that
/// statement, which has no name, one text and one type, they are those with it behind.
fn rewritten(alloc: Global, s: &mut State) -> Result<(bool, bool), BlobFault> {
    let first = encode(alloc, s)?;
    let is_row = first.as_slice() == ROW.as_slice();
    drop(first);
    s.statements.put("", "Q", &[25])?;
    let named = encode_with(alloc, s, &Statements::new(alloc))?;
    let is_named = named.as_slice() == ROW.as_slice();
    drop(named);
    let longer = encode(alloc, s)?;
    let behind = [0, 1, 0, 0, 0, 0, 0, 0, 0, 1, 81, 0, 1, 0, 0, 0, 25u8];
    let is_longer = longer.len() == 40 && longer.as_slice().ends_with(behind.as_slice());
    Ok((is_row && is_named, is_longer))
}

#[test]
fn a_state_is_written(rt: HostRuntime) -> Result<(), Fail> {
    let mut s = decode(rt.alloc(), &ROW)?;
    let written = rewritten(rt.alloc(), &mut s);
    drop(s);
    assert_eq!(rt; written, Ok((true, true)));
    Ok(())
}

#[test]
fn faults_are_told_from_left_to_right(rt: HostRuntime) {
    let rows: [(&[u8], Option<BlobFault>); 8] = [
        (&ROW, None),
        (&[2], Some(BlobFault::BadVersion(2))),
        (&[0, 1, 2], Some(BlobFault::BadVersion(0))),
        (
            &[1, 0, 0, 0, 0, 0, 0, 0, 0, 0, 0, 0, 0, 9],
            Some(BlobFault::Trailing),
        ),
        (&[1, 0, 0, 0, 1, 255], Some(BlobFault::NotCanonical)),
        // A name twice is told before its value is read.
        (
            &[
                1, 0, 0, 0, 0, 0, 0, 0, 0, 0, 2, 0, 0, 0, 1, 120, 0, 0, 0, 0, 0, 0, 0, 1, 120,
            ],
            Some(BlobFault::NotCanonical),
        ),
        // The statement without a name, twice.
        (
            &[
                1, 0, 0, 0, 0, 0, 0, 0, 0, 0, 0, 0, 2, 0, 0, 0, 0, 0, 0, 0, 0, 0, 0, 0, 0, 0, 0,
            ],
            Some(BlobFault::NotCanonical),
        ),
        // A type of three bytes.
        (
            &[
                1, 0, 0, 0, 0, 0, 0, 0, 0, 0, 0, 0, 1, 0, 0, 0, 0, 0, 0, 0, 0, 0, 1, 0, 0, 0,
            ],
            Some(BlobFault::Short),
        ),
    ];
    for (blob, fault) in rows {
        assert_eq!(rt; fault_of(rt.alloc(), blob), fault, "at {blob:?}");
    }
    for cut in 0..25 {
        let fault = fault_of(rt.alloc(), &ROW[..cut]);
        assert_eq!(rt; fault, Some(BlobFault::Short), "at {cut}");
    }
}

#[test]
fn the_limit_is_told_first(rt: HostRuntime) -> Result<(), Fail> {
    let mut blob = Vec::new(rt.alloc());
    blob.resize(1_048_576, 2)?;
    let within = fault_of(rt.alloc(), blob.as_slice());
    assert_eq!(rt; within, Some(BlobFault::BadVersion(2)));
    blob.push(2)?;
    let above = fault_of(rt.alloc(), blob.as_slice());
    assert_eq!(rt; above, Some(BlobFault::TooLarge(1_048_577)));
    Ok(())
}
