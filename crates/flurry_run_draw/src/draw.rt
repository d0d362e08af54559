//! The drawing of a schedule's run.
ghost use Rattle.std.specs.Prelude.{◌≡◌, ◌++◌, IfOk, OnOk};
ghost use Rattle.flurry_run_draw.specs.ReaderState.{AddsNames, IsDrawing, IsOneLine};

use crate::label::{Kind, split_line};
use crate::lanes::{Lane, Mark, Plan};
use crate::page::Page;
use flurry_base::sizes::MAX_TABLE;
use std::alloc::{AllocError, Global};

const STYLE: &str = "![CDATA[
text { font: 12px sans-serif; fill: #1f2328; } .name { font-weight: bold; }
line { stroke: #8c959f; } .table { fill: none; stroke: #8c959f; }
.c0 { color: #0969da; } .c1 { color: #bc4c00; } .c2 { color: #1a7f37; }
.c3 { color: #8250df; } .c4 { color: #cf222e; } .c5 { color: #9a6700; }
circle, .bin { fill: currentColor; stroke: currentColor; } .bin { stroke: none; } .end { fill: none; stroke-width: 2; }
@media (prefers-color-scheme: dark) {
  text { fill: #f0f6fc; }
  .c0 { color: #4493f8; } .c1 { color: #f0883e; } .c2 { color: #3fb950; }
  .c3 { color: #ab7df8; } .c4 { color: #f85149; } .c5 { color: #d29922; }
}
]]";

/// Draws the run of `schedule`, which has written `text`.
///
/// Without its tags, the page is `text`, followed by one line with the names of lanes and tables.
///
/// # Errors
///
/// Returns [`AllocError`] if memory for the page cannot be allocated.
#[tactic(auto, using(crate::proofs::Names::names))]
pub fn draw(alloc: Global, plan: &Plan, schedule: &[u8], text: &[u8]) -> Result<Page, AllocError>
    ensures { IfOk result (IsDrawing text.now) }
{
    let mut page = Page::new(alloc);
    let tables = tables_of(alloc, plan)?;
    let below = row_y(plan.rows).saturating_add(20);
    let width = lane_x(plan.lanes.len() as u64).max(360);
    let height = table_y(below, tables.len() as u64);
    page.tag(&format!(in alloc;
        "svg xmlns=\"http://www.w3.org/2000/svg\" viewBox=\"0 0 {width} {height}\" width=\"{width}\" height=\"{height}\""
    )?)?;
    page.tag("style")?;
    page.tag(STYLE)?;
    page.tag("/style")?;
    draw_lines(&mut page, alloc, plan)?;
    draw_marks(&mut page, alloc, plan, text)?;
    draw_names(&mut page, alloc, plan, schedule)?;
    draw_tables(&mut page, alloc, plan, &tables, below, width)?;
    page.tag("/svg")?;
    page.text(b"\n")?;
    Ok(page)
}

// Draws the line of each lane.
fn draw_lines(page: &mut Page, alloc: Global, plan: &Plan) -> Result<(), AllocError>
    ensures { page.new ≡ page.old }
{
    let mut number = 0u64;
    for lane in &plan.lanes {
        let x = mark_x(number, 0);
        let (from, to) = (row_y(lane.first), row_y(lane.last));
        page.tag(&format!(in alloc; "line x1=\"{x}\" y1=\"{from}\" x2=\"{x}\" y2=\"{to}\"/")?)?;
        number = number.saturating_add(1);
    }
    Ok(())
}

// Draws each mark with its line of `text`, and then the rest of `text`.
fn draw_marks(page: &mut Page, alloc: Global, plan: &Plan, text: &[u8]) -> Result<(), AllocError>
    ensures { OnOk result (page.new ≡ page.old ++ text.now) }
{
    let mut rest = text;
    for mark in &plan.marks {
        let (line, after) = split_line(rest);
        draw_mark(page, alloc, *mark, line)?;
        rest = after;
    }
    let y = row_y(plan.rows);
    draw_text(page, alloc, "rest", 20, y, rest)
}

// Draws a mark, with its text beside it, or as a hint if the mark is small.
fn draw_mark(page: &mut Page, alloc: Global, mark: Mark, line: &[u8]) -> Result<(), AllocError>
    ensures { OnOk result (page.new ≡ page.old ++ line.now) }
{
    let (radius, kind) = match mark.kind {
        Kind::Silent => (2, ""),
        Kind::Moved(_, _) | Kind::Wiped(_, _) => (3, ""),
        Kind::Decides => (6, ""),
        Kind::Ends => (5, " end"),
        _ => (4, ""),
    };
    let (x, y) = (mark_x(mark.lane, mark.place), row_y(mark.row));
    let color = mark.lane % 6;
    page.tag(&format!(in alloc;
        "circle class=\"c{color}{kind}\" cx=\"{x}\" cy=\"{y}\" r=\"{radius}\""
    )?)?;
    if mark.kind.is_small() {
        page.tag("title")?;
        page.text(line)?;
        page.tag("/title")?;
        return page.tag("/circle");
    }
    page.tag("/circle")?;
    draw_text(
        page,
        alloc,
        "label",
        x.saturating_add(11),
        y.saturating_add(4),
        line,
    )
}

// Draws a text at the position `x`, `y`.
fn draw_text(
    page: &mut Page,
    alloc: Global,
    class: &str,
    x: u64,
    y: u64,
    text: &[u8],
) -> Result<(), AllocError>
    ensures { OnOk result (page.new ≡ page.old ++ text.now) }
{
    page.tag(&format!(in alloc; "text class=\"{class}\" x=\"{x}\" y=\"{y}\"")?)?;
    page.text(text)?;
    page.tag("/text")
}

// Draws the first line of a text at the position `x`, `y`.
#[tactic(auto, using(crate::proofs::Names::names))]
fn draw_line(
    page: &mut Page,
    alloc: Global,
    class: &str,
    x: u64,
    y: u64,
    text: &[u8],
) -> Result<(), AllocError>
    ensures { OnOk result (AddsNames page.old page.new) }
{
    draw_text(page, alloc, class, x, y, first_line(text))
}

// Returns the first line of a text, without its line feed.
fn first_line(text: &[u8]) -> &[u8]
    ensures { IsOneLine result.now }
{
    match text.iter().position(|byte| *byte == b'\n') {
        Some(end) => text.split_at(end).0,
        None => text,
    }
}

// Draws the name of each lane, and the call of its party.
#[tactic(auto, using(crate::proofs::Names::names))]
fn draw_names(
    page: &mut Page,
    alloc: Global,
    plan: &Plan,
    schedule: &[u8],
) -> Result<(), AllocError>
    ensures { OnOk result (AddsNames page.old page.new) }
{
    let mut number = 0u64;
    for lane in &plan.lanes {
        draw_name(page, alloc, number, *lane, schedule)?;
        number = number.saturating_add(1);
    }
    Ok(())
}

// Draws the name of a lane, and the call of its party.
#[tactic(auto, using(crate::proofs::Names::names))]
fn draw_name(
    page: &mut Page,
    alloc: Global,
    number: u64,
    lane: Lane,
    schedule: &[u8],
) -> Result<(), AllocError>
    ensures { OnOk result (AddsNames page.old page.new) }
{
    let name = format!(in alloc; "party {number}")?;
    let x = lane_x(number);
    draw_line(page, alloc, "name", x, 20, name.as_bytes())?;
    let line = schedule.get(lane.from..lane.to).unwrap_or(b"");
    let call = line.strip_prefix(b"begin ").unwrap_or(line);
    draw_line(page, alloc, "call", x, 36, call)
}

// Draws each of `tables`.
#[tactic(auto, using(crate::proofs::Names::names))]
fn draw_tables(
    page: &mut Page,
    alloc: Global,
    plan: &Plan,
    tables: &[u64],
    below: u64,
    width: u64,
) -> Result<(), AllocError>
    ensures { OnOk result (AddsNames page.old page.new) }
{
    let mut number = 0u64;
    for table in tables {
        draw_table(page, alloc, plan, *table, table_y(below, number), width)?;
        number = number.saturating_add(1);
    }
    Ok(())
}

// Draws the name of a table, and those of its bins that were moved or wiped, each in the colour of the party that did so.
#[tactic(auto, using(crate::proofs::Names::names))]
fn draw_table(
    page: &mut Page,
    alloc: Global,
    plan: &Plan,
    table: u64,
    y: u64,
    width: u64,
) -> Result<(), AllocError>
    ensures { OnOk result (AddsNames page.old page.new) }
{
    let bins = 2u64.saturating_pow(table.min(u64::from(MAX_TABLE)) as u32);
    let name = format!(in alloc; "table {table}, of {bins} bins: moved above, wiped below")?;
    draw_line(page, alloc, "name", 20, y, name.as_bytes())?;
    let (top, wide) = (y.saturating_add(6), width.saturating_sub(40));
    page.tag(&format!(in alloc;
        "rect class=\"table\" x=\"20\" y=\"{top}\" width=\"{wide}\" height=\"20\"/"
    )?)?;
    page.tag(&format!(in alloc;
        "svg x=\"20\" y=\"{top}\" width=\"{wide}\" height=\"20\" viewBox=\"0 0 {bins} 2\" preserveAspectRatio=\"none\""
    )?)?;
    draw_bins(page, alloc, plan, table)?;
    page.tag("/svg")
}

// Draws those bins of a table that were moved or wiped.
fn draw_bins(page: &mut Page, alloc: Global, plan: &Plan, table: u64) -> Result<(), AllocError>
    ensures { page.new ≡ page.old }
{
    for mark in &plan.marks {
        let (of, bin, y) = match mark.kind {
            Kind::Moved(of, bin) => (of, bin, 0),
            Kind::Wiped(of, bin) => (of, bin, 1),
            _ => continue,
        };
        if of == table {
            let color = mark.lane % 6;
            page.tag(&format!(in alloc;
                "rect class=\"bin c{color}\" x=\"{bin}\" y=\"{y}\" width=\"1\" height=\"1\"/"
            )?)?;
        }
    }
    Ok(())
}

// Returns the exponents of the tables that the marks are about, in ascending order.
fn tables_of(alloc: Global, plan: &Plan) -> Result<Vec<u64>, AllocError> {
    let mut tables = Vec::new(alloc);
    for table in 0..=u64::from(MAX_TABLE) {
        if plan
            .marks
            .iter()
            .any(|mark| mark.kind.table() == Some(table))
        {
            tables.push(table)?;
        }
    }
    Ok(tables)
}

// The x coordinate at which a lane starts.
fn lane_x(lane: u64) -> u64 {
    lane.saturating_mul(170).saturating_add(20)
}

// The x coordinate of a mark in its row.
fn mark_x(lane: u64, place: u64) -> u64 {
    lane_x(lane)
        .saturating_add(place.saturating_mul(8))
        .saturating_add(8)
}

// The y coordinate of a row.
fn row_y(row: u64) -> u64 {
    row.saturating_mul(18).saturating_add(58)
}

// The y coordinate of a table's name, below the rows.
fn table_y(below: u64, number: u64) -> u64 {
    number.saturating_mul(46).saturating_add(below)
}
