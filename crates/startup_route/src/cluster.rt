//! The cluster that options and database name, and what is left of them.

ghost use Rattle.std.specs.Prelude.{◌≡◌, ◌++◌, if◌then◌else◌, option_to_list, string_bytes, IfOk, OnOk};
ghost use Rattle.std.specs.Option.{option_copied};
ghost use Rattle.std.specs.List.{join_with_byte, list_all};
ghost use Rattle.std.specs.Str.{bytes_eq};
ghost use Rattle.startup_route.specs.Clusters.{texts, words, names_cluster, name_in, named, other_words, options_left};
ghost use Rattle.startup_route.specs.Clusters.{prefixes, database_left, names, one_of};
ghost use Rattle.startup_route.specs.Routes.{Decides};

use crate::fault::DoorFault;
use crate::packet_fault::PacketFault;
use pgw_frames::{NoMemory, Text};
use std::alloc::{AllocError, Global};

/// How a word of the options begins that names a cluster.
const MARK: &str = "--cluster=";

/// What stands between the blanks of a text.
fn words(alloc: Global, text: &str) -> Result<Vec<&str>, AllocError>
    ensures { IfOk result (λ ws. texts ws.items ≡ words text.now) }
{
    text.split(' ').filter(|w| !w.is_empty()).collect(alloc)
}

fn names_cluster(word: &str) -> bool
    ensures { result ≡ names_cluster word.now }
{
    word.starts_with(MARK)
}

/// The words that name no cluster.
fn other_words(alloc: Global, text: &str) -> Result<Vec<&str>, AllocError>
    ensures { IfOk result (λ ws. texts ws.items ≡ other_words (words text.now)) }
{
    text.split(' ')
        .filter(|w| !w.is_empty())
        .filter(|w| !names_cluster(w))
        .collect(alloc)
}

/// The name in a word that names a cluster.
fn name_in(word: &str) -> Option<&str>
    ensures { option_copied result ≡ (if names_cluster word.now then Some (name_in word.now) else None) }
{
    word.strip_prefix(MARK)
}

/// Adds the clusters that these words name.
fn add_names<'a>(words: &[&'a str], names: &mut Vec<&'a str>) -> Result<(), NoMemory>
    ensures { OnOk result (texts names.new.items ≡ texts names.old.items ++ named (texts words.now)) }
{
    for word in words {
        if let Some(name) = name_in(word) {
            names.push(name)?;
        }
    }
    Ok(())
}

/// The words with a blank between them.
fn joined(alloc: Global, words: &[&str]) -> Result<String, NoMemory>
    ensures { IfOk result (λ t. string_bytes t ≡ join_with_byte 32 (texts words.now)) }
{
    let mut text = String::new(alloc);
    for (i, word) in words.iter().enumerate() {
        if i > 0 {
            text.push(' ')?;
        }
        text.push_str(word)?;
    }
    Ok(text)
}

/// The options without the words that name a cluster.
pub(crate) fn options_left(alloc: Global, options: &str) -> Result<String, NoMemory>
    ensures { IfOk result (λ t. string_bytes t ≡ options_left options.now) }
{
    let words = other_words(alloc, options)?;
    joined(alloc, &words)
}

/// The cluster that the database names, and what is left of the database.
fn split_database(database: &str) -> (Option<&str>, &str)
    ensures prefix { option_to_list (option_copied result.0) ≡ prefixes database.now }
    ensures left { result.1.now ≡ database_left database.now }
{
    match database.split_once('.') {
        Some((prefix, left)) => (Some(prefix), left),
        None => (None, database),
    }
}

/// The database without the cluster.
pub(crate) fn database_left(database: &str) -> &str
    ensures { result.now ≡ database_left database.now }
{
    split_database(database).1
}

fn are_all(names: &[&str], name: &str) -> bool
    ensures { result ≡ list_all (λ n. bytes_eq name.now n.now) names.now }
{
    names.iter().all(|n| name == *n)
}

/// The one cluster that all of these names are.
fn one_of(alloc: Global, names: &[&str]) -> Result<Text, PacketFault>
    ensures { Decides (one_of (texts names.now)) result }
{
    let Some((first, others)) = names.split_first() else {
        return Err(PacketFault::Fault(DoorFault::NoCluster));
    };
    if !are_all(others, first) {
        return Err(PacketFault::Fault(DoorFault::TwoClusters));
    }
    Ok(Text::of(alloc, first)?)
}

/// All clusters that are named, in order.
fn names<'a>(alloc: Global, options: &'a str, database: &'a str) -> Result<Vec<&'a str>, NoMemory>
    ensures { IfOk result (λ ns. texts ns.items ≡ names options.now database.now) }
{
    let words = words(alloc, options)?;
    let mut names = Vec::new(alloc);
    add_names(&words, &mut names)?;
    if let (Some(prefix), _) = split_database(database) {
        names.push(prefix)?;
    }
    Ok(names)
}

/// The cluster that options and database name.
pub(crate) fn read_cluster(
    alloc: Global,
    options: &str,
    database: &str,
) -> Result<Text, PacketFault>
    ensures { Decides (one_of (names options.now database.now)) result }
{
    let names = names(alloc, options, database)?;
    one_of(alloc, &names)
}
