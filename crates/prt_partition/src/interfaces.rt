//! The interfaces that rules name, and one that no rule names.
ghost use Rattle.std.specs.Prelude.{◌≡◌, ◌≤◌, ◌++◌, false, length, IfOk, OnOk, bytes_eq};
ghost use Rattle.std.specs.List.{Contains, list_any};
ghost use Rattle.std.specs.List.Sorted.{IsStrictlyIncreasing};
ghost use Rattle.prt_partition.specs.Boxes.{AreNames, with_name};
ghost use Rattle.prt_partition.specs.Classes.{is_named, names, number_of, numbers_of};

use crate::cuts::sort_distinct;
use prt_route::{Dev, read_dev};
use prt_rule::Rule;
use std::alloc::{AllocError, Global};

/// Checks whether the rule names the interface.
fn names(name: &Dev, rule: &Rule) -> bool
    ensures { result ≡ names name.now rule.now }
{
    rule.iif == Some(*name)
}

/// Checks whether a rule names the interface.
pub(crate) fn is_named(rules: &[Rule], name: &Dev) -> bool
    ensures { result ≡ is_named rules.now name.now }
{
    rules.iter().any(|rule| names(name, rule))
}

/// Computes a number for each name of three bytes. Different names of three letters have different numbers.
fn number_of(name: &Dev) -> Option<u32>
    ensures { result ≡ number_of name.now }
{
    match name.as_bytes() {
        [a, b, c] => {
            let number = 676 * u32::from(*a) + 26 * u32::from(*b) + u32::from(*c);
            Some(number.saturating_sub(68_191))
        }
        _ => None,
    }
}

/// Appends the numbers of the names of three bytes among those that rules name.
fn push_numbers(numbers: &mut Vec<u32>, rules: &[Rule]) -> Result<(), AllocError>
    ensures { OnOk result (numbers.new.items ≡ numbers.old.items ++ numbers_of rules.now) }
{
    for rule in rules {
        if let Some(name) = &rule.iif {
            if let Some(number) = number_of(name) {
                numbers.push(number)?;
            }
        }
    }
    Ok(())
}

/// Finds the lowest number that isn't in the list.
fn first_gap(numbers: &[u32]) -> u32
    requires rise { IsStrictlyIncreasing numbers.now }
    requires few { length numbers.now ≤ 2000 }
    ensures gap { Contains numbers.now result → ⊥ }
    ensures low { result ≤ length numbers.now }
{
    for (i, number) in numbers.iter().enumerate() {
        if *number as usize != i {
            return i as u32;
        }
    }
    numbers.len() as u32
}

/// Builds the name of three letters that has this number.
fn name_of(number: u32) -> Dev
    requires { number ≤ 2000 }
    ensures { number_of result ≡ Some number }
{
    let letters = [
        b'a' + (number / 676) as u8,
        b'a' + (number / 26 % 26) as u8,
        b'a' + (number % 26) as u8,
    ];
    match read_dev(&letters) {
        Ok(name) => name,
        Err(_) => Dev::loopback(),
    }
}

/// Finds an interface that no rule names: the loopback, which packets of the host itself come from, or else a made-up one.
///
/// # Errors
///
/// Memory is refused.
pub fn fresh_name(alloc: Global, rules: &[Rule]) -> Result<Dev, AllocError>
    requires { length rules.now ≤ 2000 }
    ensures { IfOk result (λ name. is_named rules.now name ≡ false) }
{
    let loopback = Dev::loopback();
    if !is_named(rules, &loopback) {
        return Ok(loopback);
    }
    let mut numbers = Vec::new(alloc);
    push_numbers(&mut numbers, rules)?;
    sort_distinct(&mut numbers);
    Ok(name_of(first_gap(&numbers)))
}

/// Checks whether the name is one of these.
fn is_among(names: &[Dev], name: &Dev) -> bool
    ensures { result ≡ list_any (bytes_eq name.now) names.now }
{
    names
        .iter()
        .any(|other| name.as_bytes() == other.as_bytes())
}

/// Appends the name, if there is one and it isn't one of these.
fn push_name(names: &mut Vec<Dev>, name: &Option<Dev>) -> Result<(), AllocError>
    ensures { OnOk result (names.new.items ≡ with_name names.old.items name.now) }
{
    match name {
        Some(name) if !is_among(names, name) => {
            names.push(*name)?;
            Ok(())
        }
        _ => Ok(()),
    }
}

/// Collects the interfaces that rules name, each of them once.
///
/// # Errors
///
/// Memory is refused.
pub fn names_of(alloc: Global, rules: &[Rule]) -> Result<Vec<Dev>, AllocError>
    ensures value { IfOk result (λ names. AreNames rules.now names.items) }
    ensures few { IfOk result (λ names. length names.items ≤ length rules.now) }
{
    let mut names = Vec::new(alloc);
    for rule in rules {
        push_name(&mut names, &rule.iif)?;
    }
    Ok(names)
}
