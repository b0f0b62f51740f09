//! The pairs of an assertion as lists of variables, for a `$d` each.

ghost use Rattle.std.specs.Prelude.{◌≡◌, true, IfOk, IsTrue};
ghost use Rattle.std.specs.List.{list_all};
ghost use Rattle.sourcewriting.specs.Groups.{AreGrouped, has_pair, is_pair, restricted, seen_groups};
ghost use Rattle.sourcewriting.specs.Grouping.{IsGroupOf, stand_in};

use std::alloc::{AllocError, Global};

/// So many pairs are gathered into lists at most: of more, each makes a list of its own.
const MOST_GATHERED: usize = 100;

/// Whether a pair is of these variables, either way round.
fn is_pair(pair: (u32, u32), one: u32, other: u32) -> bool
    ensures { result ≡ is_pair one other pair }
{
    (pair.0 == one && pair.1 == other) || (pair.0 == other && pair.1 == one)
}

/// Whether there is a pair of these variables.
fn has_pair(pairs: &[(u32, u32)], one: u32, other: u32) -> bool
    ensures { result ≡ has_pair pairs.now one other }
{
    pairs.iter().any(|pair| is_pair(*pair, one, other))
}

/// Adds a variable to some, if it isn't one of them.
fn add(variables: &mut Vec<u32>, variable: u32) -> Result<(), AllocError> {
    if !variables.as_slice().contains(&variable) {
        variables.push(variable)?;
    }
    Ok(())
}

/// The variables of pairs, each once, as they come up.
fn variables_of(alloc: Global, pairs: &[(u32, u32)]) -> Result<Vec<u32>, AllocError> {
    let mut variables = Vec::new(alloc);
    for (one, other) in pairs {
        add(&mut variables, *one)?;
        add(&mut variables, *other)?;
    }
    Ok(variables)
}

/// Whether there is a pair of a variable and of each in a list.
fn has_all(pairs: &[(u32, u32)], group: &[u32], variable: u32) -> bool
    ensures { result ≡ list_all (λ w. has_pair pairs.now w variable) group.now }
{
    group
        .iter()
        .all(|member| has_pair(pairs, *member, variable))
}

/// The list that begins with a pair: each variable follows that has a pair with all before it.
fn group_of(
    alloc: Global,
    pairs: &[(u32, u32)],
    variables: &[u32],
    one: u32,
    other: u32,
) -> Result<Vec<u32>, AllocError>
    requires { has_pair pairs.now one other ≡ true }
    ensures { IfOk result (λ made. IsGroupOf pairs.now one other made.items) }
{
    let mut group = Vec::from_slice(alloc, [one, other].as_slice())?;
    for variable in variables {
        if has_all(pairs, group.as_slice(), *variable) {
            group.push(*variable)?;
        }
    }
    Ok(group)
}

/// Whether two variables that differ stand in a list.
fn stand_in(group: &[u32], one: u32, other: u32) -> bool
    ensures { result ≡ stand_in group.now one other }
{
    one != other && group.contains(&one) && group.contains(&other)
}

/// Whether two variables stand in one of some lists.
fn are_restricted(groups: &[Vec<u32>], one: u32, other: u32) -> bool
    ensures { IsTrue result → has_pair (restricted (seen_groups groups.now)) one other ≡ true }
{
    for group in groups {
        if stand_in(group.as_slice(), one, other) {
            return true;
        }
    }
    false
}

/// Pairs as lists: each list begins with the first pair that is in none before, and has each variable that can follow.
fn gathered(alloc: Global, pairs: &[(u32, u32)]) -> Result<Vec<Vec<u32>>, AllocError>
    ensures { IfOk result (λ made. AreGrouped pairs.now (seen_groups made.items)) }
{
    let variables = variables_of(alloc, pairs)?;
    let mut groups = Vec::new(alloc);
    for (one, other) in pairs {
        if are_restricted(groups.as_slice(), *one, *other) {
            continue;
        }
        groups.push(group_of(alloc, pairs, variables.as_slice(), *one, *other)?)?;
    }
    Ok(groups)
}

/// Each pair as a list of its own.
fn each_alone(alloc: Global, pairs: &[(u32, u32)]) -> Result<Vec<Vec<u32>>, AllocError>
    ensures { IfOk result (λ made. AreGrouped pairs.now (seen_groups made.items)) }
{
    let mut groups = Vec::new(alloc);
    for (one, other) in pairs {
        groups.push(Vec::from_slice(alloc, [*one, *other].as_slice())?)?;
    }
    Ok(groups)
}

/// The pairs of variables of an assertion as lists of variables, for a `$d` each: of each two in a list there is a pair, and each pair is
/// in a list. Of up to 100 pairs the first that is in no list begins the next one, which then takes each variable, as they come up, that
/// has a pair with all in it; of more, each makes a list.
///
/// # Errors
///
/// Want of memory.
pub(crate) fn grouped(alloc: Global, pairs: &[(u32, u32)]) -> Result<Vec<Vec<u32>>, AllocError>
    ensures { IfOk result (λ made. AreGrouped pairs.now (seen_groups made.items)) }
{
    if pairs.len() > MOST_GATHERED {
        each_alone(alloc, pairs)
    } else {
        gathered(alloc, pairs)
    }
}
