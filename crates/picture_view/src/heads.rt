//! What stands above the lanes, and below them.

ghost use Rattle.std.specs.Prelude.{◌≡◌, ◌+◌, ◌++◌, ◌∷◌, [], IfOk, OnOk, length, filter, string_bytes};
ghost use Rattle.std.specs.List.{flat_map, enumerate_from};
ghost use Rattle.lab_report.specs.Report.{graft_line as graft_line_lem, end_line as end_line_lem};
ghost use Rattle.lab_report.specs.Summary.{was_refused};
ghost use Rattle.picture_view.specs.Heads.{refused_line, refused_text, root_start, paper, style_text};
ghost use Rattle.picture_view.specs.Heads.{title_words, counts_words, titles, legend, head_text};

use crate::elements::{push_escaped, push_text_at, push_text_start};
use crate::plan::{Plan, last_round};
use crate::positions::{bottom_y, plus, times};
use graft_edge::NoMemory;
use graft_steps::{GraftEntry, GraftStage, Outcome};
use lab_report::{Lab, push_end, push_graft};
use lab_tables::LabInput;
use std::alloc::Global;
use std::fmt::Write;

/// How texts, the paper, lanes and paths look, and the colours of peerings.
const STYLE: &str =
    "<style>text{font:11px DejaVu Sans,Verdana,sans-serif;fill:#333}path{fill:none}.p{fill:#fff}.e{fill:#f0f2f5}
.h{font-size:18px;font-weight:bold}.r{font-size:12px;font-weight:bold}.n{font-size:10px;text-anchor:end}
.l{font-size:10px;fill:#666}.a{font-size:10px;fill:#666;text-anchor:middle}.g{font-size:9px}
.r,.n,.g{paint-order:stroke;stroke:#f0f2f5;stroke-width:3px}
.s{stroke-width:3px;stroke-linecap:round}.d{stroke-width:7px;stroke-linecap:round}
.w{stroke-width:2px;stroke-dasharray:5 3}.k{stroke-width:1px;stroke-dasharray:2 3}
.x{stroke:#000;stroke-width:2px}.o{stroke:#d4d9e0}.b{stroke:#999;stroke-width:2px}
.c0{stroke:#332288}.c1{stroke:#cc6677}.c2{stroke:#44aa99}.c3{stroke:#882255}
.c4{stroke:#88ccee}.c5{stroke:#117733}.c6{stroke:#aa4499}
</style>
";

/// What each shape says.
const LEGEND: &str = "<path class='s c0' d='M16 78h32'/><text x='56' y='82'>at a router</text>
<path class='w c0' d='M144 84C160 84 160 72 176 72'/><text x='184' y='82'>on its way</text>
<path class='k c0' d='M272 78h32'/><text x='312' y='82'>its place kept at the source</text>
<path class='d c0' d='M500 78h0'/><text class='g' x='507' y='76'>7</text><text x='520' y='82'>landed by graft 7</text>
<path class='x' d='M639 73l10 10m0 -10l-10 10'/><text x='656' y='82'>refused</text>
<path class='b' d='M728 70v16'/><text x='736' y='82'>a group of the script begins</text>
";

/// The line of the refused graft of a number, in memory.
fn refused_words(alloc: Global, input: &LabInput, graft: &GraftEntry) -> Result<String, NoMemory>
    ensures { IfOk result (λ words. string_bytes words ≡ graft_line_lem input.now graft.now) }
{
    let mut words = String::new(alloc);
    push_graft(&mut words, input, graft)?;
    Ok(words)
}

/// A refused graft, with its number among them.
#[tactic(auto, unfolding(crate::specs::Heads::refused_line))]
fn push_refused_line(
    text: &mut String,
    alloc: Global,
    input: &LabInput,
    plan: &Plan,
    number: usize,
    graft: &GraftEntry,
) -> Result<(), NoMemory>
    ensures { OnOk result (string_bytes text.new ≡ string_bytes text.old ++ refused_line input.now plan.now (number, graft.now)) }
{
    let words = refused_words(alloc, input, graft)?;
    let first = plus(bottom_y(plan)?, 36)?;
    let y = plus(first, times(16, number)?)?;
    push_text_at(text, "t", 16, y, words.as_str())
}

/// Whether a graft was refused.
fn was_refused(graft: &GraftEntry) -> bool
    ensures { result ≡ was_refused graft.now }
{
    matches!(&graft.stage, GraftStage::Ended(Outcome::Refused(_)))
}

/// Adds a graft, if it was refused, behind so many others, and returns how many there are then.
fn push_if_refused(
    text: &mut String,
    alloc: Global,
    input: &LabInput,
    plan: &Plan,
    number: usize,
    graft: &GraftEntry,
) -> Result<usize, NoMemory>
    ensures text { OnOk result (string_bytes text.new ≡ string_bytes text.old
        ++ flat_map (refused_line input.now plan.now) (enumerate_from number (filter was_refused (graft.now ∷ [])))) }
    ensures number { IfOk result (λ next. next ≡ number + length (filter was_refused (graft.now ∷ []))) }
{
    if !was_refused(graft) {
        return Ok(number);
    }
    push_refused_line(text, alloc, input, plan, number, graft)?;
    plus(number, 1)
}

/// The refused grafts, in the order of the log.
#[tactic(auto, unfolding(crate::specs::Heads::refused_text))]
pub(crate) fn push_refused(
    text: &mut String,
    alloc: Global,
    input: &LabInput,
    plan: &Plan,
    log: &[GraftEntry],
) -> Result<(), NoMemory>
    ensures { OnOk result (string_bytes text.new ≡ string_bytes text.old ++ refused_text input.now plan.now log.now) }
{
    let mut number: usize = 0;
    for graft in log {
        number = push_if_refused(text, alloc, input, plan, number, graft)?;
    }
    Ok(())
}

/// The start tag of the picture.
#[tactic(auto, unfolding(crate::specs::Heads::root_start))]
fn push_root_start(text: &mut String, width: usize, height: usize) -> Result<(), NoMemory>
    ensures { OnOk result (string_bytes text.new ≡ string_bytes text.old ++ root_start width height) }
{
    write!(
        text,
        "<svg xmlns='http://www.w3.org/2000/svg' width='{width}' height='{height}' viewBox='0 0 {width} {height}'>\n"
    )?;
    Ok(())
}

/// The paper.
#[tactic(auto, unfolding(crate::specs::Heads::paper))]
fn push_paper(text: &mut String, width: usize, height: usize) -> Result<(), NoMemory>
    ensures { OnOk result (string_bytes text.new ≡ string_bytes text.old ++ paper width height) }
{
    write!(
        text,
        "<rect class='p' width='{width}' height='{height}'/>\n"
    )?;
    Ok(())
}

/// How all looks.
fn push_style(text: &mut String) -> Result<(), NoMemory>
    ensures { OnOk result (string_bytes text.new ≡ string_bytes text.old ++ style_text) }
{
    text.push_str(STYLE)?;
    Ok(())
}

/// How the run ended, in memory.
fn end_words(alloc: Global, lab: &Lab) -> Result<String, NoMemory>
    ensures { IfOk result (λ words. string_bytes words ≡ end_line_lem lab.now.input lab.now.end) }
{
    let mut words = String::new(alloc);
    push_end(&mut words, &lab.input, lab.end)?;
    Ok(words)
}

/// How the run ended.
#[tactic(auto, unfolding(crate::specs::Heads::title_words))]
fn push_title_words(text: &mut String, alloc: Global, lab: &Lab) -> Result<(), NoMemory>
    ensures { OnOk result (string_bytes text.new ≡ string_bytes text.old ++ title_words lab.now) }
{
    let words = end_words(alloc, lab)?;
    text.push_str("Sessions and grafts: ")?;
    push_escaped(text, words.as_str())
}

/// How many routers, peerings, grafts and rounds there are.
#[tactic(auto, unfolding(crate::specs::Heads::counts_words))]
fn push_counts(text: &mut String, lab: &Lab) -> Result<(), NoMemory>
    ensures { OnOk result (string_bytes text.new ≡ string_bytes text.old ++ counts_words lab.now) }
{
    let routers = lab.input.routers.len();
    let peerings = lab.input.peerings.len();
    let grafts = lab.log.len();
    let rounds = last_round(lab.marks.len());
    write!(
        text,
        "routers {routers}, peerings {peerings}, grafts {grafts}, rounds {rounds}"
    )?;
    Ok(())
}

/// The title, and the counts below it.
#[tactic(auto, unfolding(crate::specs::Heads::titles))]
fn push_titles(text: &mut String, alloc: Global, lab: &Lab) -> Result<(), NoMemory>
    ensures { OnOk result (string_bytes text.new ≡ string_bytes text.old ++ titles lab.now) }
{
    push_text_start(text, "h", 16, 30)?;
    push_title_words(text, alloc, lab)?;
    text.push_str("</text>\n")?;
    push_text_start(text, "t", 16, 50)?;
    push_counts(text, lab)?;
    text.push_str("</text>\n")?;
    Ok(())
}

/// What each shape says.
fn push_legend(text: &mut String) -> Result<(), NoMemory>
    ensures { OnOk result (string_bytes text.new ≡ string_bytes text.old ++ legend) }
{
    text.push_str(LEGEND)?;
    Ok(())
}

/// What stands above the lanes.
#[tactic(auto, unfolding(crate::specs::Heads::head_text))]
pub(crate) fn push_head(
    text: &mut String,
    alloc: Global,
    lab: &Lab,
    width: usize,
    height: usize,
) -> Result<(), NoMemory>
    ensures { OnOk result (string_bytes text.new ≡ string_bytes text.old ++ head_text lab.now width height) }
{
    push_root_start(text, width, height)?;
    text.push_str("<title>")?;
    push_title_words(text, alloc, lab)?;
    text.push_str("</title>\n")?;
    push_style(text)?;
    push_paper(text, width, height)?;
    push_titles(text, alloc, lab)?;
    push_legend(text)
}
