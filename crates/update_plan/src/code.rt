//! Sequences of numbers that encode what is told, by which equal values are found.

ghost use Rattle.std.specs.Prelude.{◌≡◌, ◌++◌, Some, IfOk, OnOk};
ghost use Rattle.route_policy.specs.Paths.{prepend};
ghost use Rattle.update_plan.specs.Codes.{listed, part_code, path_code, raw_code, raws_code, origin_index, med_code, aggregator_code, head_code, value_code};
ghost use Rattle.update_plan.specs.Passing.{passed_on};

use crate::path::split;
use bgp_types::{Aggregator, Attrs, NoMemory, Origin, PathPart, RawAttr, RawAttrs};
use std::alloc::Global;
use std::cmp::Ordering;
use std::marker::Model;

/// Room for the numbers of typical attributes: a path of seven ASes, and no attribute of an unknown
/// type.
const USUAL: usize = 16;

/// The numbers that encode what is told of a prefix. Equal values have equal numbers, and different
/// values have different ones.
#[derive(Drop)]
pub(crate) struct Code {
    numbers: Vec<u64>,
}

impl Model for Code {
    ghost use Rattle.std.specs.Prelude.{List, ℕ};

    ghost Value = { List ℕ };

    ghost view = { λ code. code.numbers.items };
}

impl PartialEq for Code {
    ghost use Rattle.std.specs.Prelude.{nat_eq};
    ghost use Rattle.std.specs.Cmp.{partial_equiv_from_equiv};
    ghost use Rattle.std.specs.Cmp.Lexicographic.{pointwise, nat_list_eq_equiv};

    ghost eq = { pointwise nat_eq };

    ghost laws = { partial_equiv_from_equiv nat_list_eq_equiv };

    fn eq(&self, other: &Code) -> bool {
        self.numbers == other.numbers
    }
}

impl Eq for Code {
    ghost use Rattle.std.specs.Cmp.Lexicographic.{nat_list_eq_equiv};

    ghost laws = { nat_list_eq_equiv };
}

impl PartialOrd for Code {
    ghost use Rattle.std.specs.Prelude.{Some};
    ghost use Rattle.std.specs.Ordering.{nat_cmp};
    ghost use Rattle.std.specs.Cmp.Lexicographic.{slice_cmp, texts_po};

    ghost partial_cmp = { λ x y. Some (slice_cmp nat_cmp x y) };

    ghost laws = { texts_po };

    fn partial_cmp(&self, other: &Code) -> Option<Ordering> {
        Some(self.cmp(other))
    }
}

impl Ord for Code {
    ghost use Rattle.std.specs.Prelude.{refl};
    ghost use Rattle.std.specs.Ordering.{nat_cmp};
    ghost use Rattle.std.specs.Cmp.Lexicographic.{slice_cmp, nat_list_cmp_total, texts_ties};

    ghost cmp = { slice_cmp nat_cmp };

    ghost total = { nat_list_cmp_total };

    ghost matches_partial_cmp = { λ x y. refl };

    ghost matches_eq = { texts_ties };

    fn cmp(&self, other: &Code) -> Ordering {
        self.numbers.cmp(&other.numbers)
    }
}

/// Adds a list of numbers, and an end mark.
fn push_numbers(code: &mut Vec<u64>, numbers: &[u32]) -> Result<(), NoMemory>
    ensures { OnOk result (code.new.items ≡ code.old.items ++ listed numbers.now) }
{
    for number in numbers {
        code.push(u64::from(*number) + 1)?;
    }
    code.push(0)?;
    Ok(())
}

/// Adds a list of octets, and an end mark.
fn push_octets(code: &mut Vec<u64>, octets: &[u8]) -> Result<(), NoMemory>
    ensures { OnOk result (code.new.items ≡ code.old.items ++ listed octets.now) }
{
    for octet in octets {
        code.push(u64::from(*octet) + 1)?;
    }
    code.push(0)?;
    Ok(())
}

/// Adds a part of a path.
fn push_part(code: &mut Vec<u64>, part: &PathPart) -> Result<(), NoMemory>
    ensures { OnOk result (code.new.items ≡ code.old.items ++ part_code part.now) }
{
    match part {
        PathPart::Set(ases) => {
            code.push(1)?;
            push_numbers(code, ases)
        }
        PathPart::Sequence(ases) => {
            code.push(2)?;
            push_numbers(code, ases)
        }
    }
}

/// Adds a path, and an end mark.
fn push_path(code: &mut Vec<u64>, path: &[PathPart]) -> Result<(), NoMemory>
    ensures { OnOk result (code.new.items ≡ code.old.items ++ path_code path.now) }
{
    for part in path {
        push_part(code, part)?;
    }
    code.push(0)?;
    Ok(())
}

/// Adds a path with one more AS in front, and an end mark.
fn push_prepended(code: &mut Vec<u64>, as_number: u32, path: &[PathPart]) -> Result<(), NoMemory>
    ensures { OnOk result (code.new.items ≡ code.old.items ++ path_code (prepend as_number path.now)) }
{
    let (ases, parts) = split(path);
    code.push(2)?;
    code.push(u64::from(as_number) + 1)?;
    push_numbers(code, ases)?;
    push_path(code, parts)
}

/// Adds an attribute of an unknown type.
fn push_raw(code: &mut Vec<u64>, raw: &RawAttr) -> Result<(), NoMemory>
    ensures { OnOk result (code.new.items ≡ code.old.items ++ raw_code raw.now) }
{
    code.push(u64::from(raw.kind) + 1)?;
    code.push(u64::from(raw.partial))?;
    push_octets(code, &raw.bytes)
}

/// Adds attributes of unknown types, and an end mark.
fn push_raws(code: &mut Vec<u64>, raws: &RawAttrs) -> Result<(), NoMemory>
    ensures { OnOk result (code.new.items ≡ code.old.items ++ raws_code raws.now) }
{
    for raw in raws.iter() {
        push_raw(code, raw)?;
    }
    code.push(0)?;
    Ok(())
}

/// Returns the number of an origin.
fn origin_number(origin: Origin) -> u64
    ensures { result ≡ origin_index origin }
{
    match origin {
        Origin::Igp => 0,
        Origin::Egp => 1,
        Origin::Incomplete => 2,
    }
}

/// Adds a MED, or that there is none.
fn push_med(code: &mut Vec<u64>, med: Option<u32>) -> Result<(), NoMemory>
    ensures { OnOk result (code.new.items ≡ code.old.items ++ med_code med) }
{
    match med {
        None => code.push(0)?,
        Some(med) => code.push(u64::from(med) + 1)?,
    }
    Ok(())
}

/// Adds an aggregator, or that there is none.
fn push_aggregator(code: &mut Vec<u64>, aggregator: Option<Aggregator>) -> Result<(), NoMemory>
    ensures { OnOk result (code.new.items ≡ code.old.items ++ aggregator_code aggregator) }
{
    match aggregator {
        None => code.push(0)?,
        Some(aggregator) => {
            code.push(u64::from(aggregator.as_number) + 1)?;
            code.push(u64::from(aggregator.address))?;
            code.push(u64::from(aggregator.partial))?;
        }
    }
    Ok(())
}

/// Adds the attributes that take one number each, with this next hop and this MED.
fn push_head(
    code: &mut Vec<u64>,
    attrs: &Attrs,
    next_hop: u32,
    med: Option<u32>,
) -> Result<(), NoMemory>
    ensures { OnOk result (code.new.items ≡ code.old.items ++ head_code (record attrs.now { next_hop = next_hop; med = med })) }
{
    code.push(origin_number(attrs.origin))?;
    code.push(u64::from(next_hop))?;
    code.push(u64::from(attrs.atomic))?;
    push_med(code, med)?;
    push_aggregator(code, attrs.aggregator)
}

/// Returns the code of attributes, or of having none.
pub(crate) fn code_of(alloc: Global, attrs: &Option<Attrs>) -> Result<Code, NoMemory>
    ensures { IfOk result (λ code. code ≡ value_code attrs.now) }
{
    let mut numbers = Vec::new(alloc);
    if let Some(attrs) = attrs {
        numbers.reserve(USUAL)?;
        push_path(&mut numbers, &attrs.path)?;
        push_raws(&mut numbers, &attrs.unknown)?;
        push_head(&mut numbers, attrs, attrs.next_hop, attrs.med)?;
    }
    Ok(Code { numbers })
}

/// Returns the code of plain attributes as they are passed on.
pub(crate) fn passed_code(
    alloc: Global,
    attrs: &Attrs,
    home_as: u32,
    local_address: u32,
) -> Result<Code, NoMemory>
    ensures { IfOk result (λ code. code ≡ value_code (Some (passed_on home_as local_address attrs.now))) }
{
    let mut numbers = Vec::new(alloc);
    numbers.reserve(USUAL)?;
    push_prepended(&mut numbers, home_as, &attrs.path)?;
    numbers.push(0)?;
    push_head(&mut numbers, attrs, local_address, None)?;
    Ok(Code { numbers })
}
