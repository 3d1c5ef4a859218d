//! Tables, columns and rows at their limits.

use super::*;

#[test]
fn columns_and_rows_at_their_limits(rt: HostRuntime) -> Result<(), Fail> {
    let asks = [
        Ask::Make("t", 17),
        Ask::Make("t", 0),
        Ask::Make("u", 16),
        Ask::Make("t", 2),
        Ask::Add("-1", 0),
        Ask::Fill(100_000),
        Ask::Fill(2_000),
        Ask::Find(1_234),
        Ask::Remove(1_234),
        Ask::Find(1_234),
        Ask::Move(1_000, 3_000),
        Ask::Find(3_000),
        Ask::Fill(0),
    ];
    let text = all_answers(rt.alloc(), &asks)?;
    let wanted = "54000 42601 made made 1 54000 2000 1234,,; 1  1 3000,,; 0 ";
    assert_eq!(rt; text.as_str(), wanted);
    Ok(())
}

/// What a store answers to 64 tables of these names and one more, after the 63rd.
fn last_tables(alloc: Global, store: &mut Store) -> Result<String, Fail> {
    for i in 0..63 {
        let table = Text::from_string(format!(in alloc; "t{i}")?);
        let columns = columns(alloc, 1)?;
        let text = step(
            alloc,
            store,
            StoreCommand::Single(Op::Create { table, columns }),
        )?;
        drop(text);
    }
    answers(alloc, store, &[Ask::Make("t", 1), Ask::Make("u", 1)])
}

#[test]
fn tables_at_their_limit(rt: HostRuntime) -> Result<(), Fail> {
    let mut store = Store::opening(rt.alloc())?;
    let text = last_tables(rt.alloc(), &mut store);
    drop(store);
    assert_eq!(rt; text?.as_str(), "made 54000 ");
    Ok(())
}
