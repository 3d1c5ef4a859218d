use super::*;
use pgw_frames::{NoMemory, Text};
use pgw_messages::Items;
use sql_text::Stmt;
use std::alloc::Global;
use std::test::*;

fn bound(alloc: Global, text: &str) -> Result<BoundStmt, NoMemory> {
    let texts = Items::from_vec(vec![in alloc; Text::of(alloc, text)?]?);
    Ok(BoundStmt {
        stmt: Stmt::Commit,
        texts,
    })
}

/// What stands under a name.
fn text<'a>(portals: &'a Portals, name: &str) -> Option<&'a str> {
    let bound = portals.find(name)?;
    let text = bound.texts.get(0)?;
    Some(text.as_str())
}

/// What stands under the empty name and under `a`, after two that came under `a`, and after a removal.
fn stands(alloc: Global, portals: &mut Portals) -> Result<bool, NoMemory> {
    portals.put("a", bound(alloc, "1")?)?;
    portals.put("", bound(alloc, "2")?)?;
    portals.put("a", bound(alloc, "3")?)?;
    let put = text(portals, "a") == Some("3") && text(portals, "") == Some("2");
    portals.remove("a");
    portals.remove("b");
    let removed = text(portals, "a").is_none() && text(portals, "") == Some("2");
    let some = !portals.is_empty();
    portals.clear();
    Ok(put && removed && some && portals.is_empty())
}

#[test]
fn portals_by_their_names(rt: HostRuntime) {
    let mut portals = Portals::new(rt.alloc());
    assert_eq!(rt; stands(rt.alloc(), &mut portals), Ok(true));
}
