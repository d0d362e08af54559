//! The table.

use crate::board::{Board, Cell, Summary};
use crate::measures::{KINDS, MEASURES};
use std::alloc::Global;

const LEGEND: &str = "
ns        from the start of the work to the end of its last thread, divided by the calls of all threads together
bytes     what a map that grew holds of its allocator with all keys in it, divided by their number
ratio     the median divided by that of flurry HashMap on the same measure, keys and threads: above 1 is slower or larger
locks     flurry HashMap locks its own bins; with RwLock<..> look-ups take the lock to read and changes to write; with Mutex<..>
          each call takes it; SeqMap, HashMap and BTreeMap alone have one thread and no lock
hashes    each hash map has the kit's default hash, but for the line with flurry's default, SipHash; BTreeMap has none
room      BTreeMap has none to ask for either, and does the same calls beside the others
one hash  std HashMap takes a step for each key of one hash, and is left out above 10,000 keys
building  from_par_list cuts the list into as many pieces as threads; its ratio goes by SeqMap::from_list, which one thread runs";

/// Prints the table, with a line for each measure, number of keys, number of threads and map.
pub fn print_table<R: Print>(
    rt: &R,
    alloc: Global,
    board: &Board,
    sizes: &[u64],
    threads: &[u64],
    csv: bool,
) -> anyhow::Result<()> {
    if csv {
        println!(rt; "measure,unit,keys,threads,map,median,ratio,least,greatest")?;
    } else {
        println!(rt;
            "{:<20}  {:<5} {:>8} {:>8}  {:<24} {:>9} {:>8} {:>9} {:>9}",
            "measure", "unit", "keys", "threads", "map", "median", "ratio", "least", "greatest"
        )?;
    }
    for measure in MEASURES {
        for keys in sizes {
            for number in threads {
                let cell = Cell {
                    measure,
                    kind: measure.base(),
                    keys: *keys,
                    threads: *number,
                };
                print_kinds(rt, alloc, board, cell, csv)?;
            }
        }
    }
    if !csv {
        println!(rt; "{LEGEND}")?;
    }
    Ok(())
}

// Prints the lines of all maps for the measure, keys and threads of `base_cell`, if the map of `base_cell`, to which the ratios refer, was
// measured.
fn print_kinds<R: Print>(
    rt: &R,
    alloc: Global,
    board: &Board,
    base_cell: Cell,
    csv: bool,
) -> anyhow::Result<()> {
    let Some(base) = board.summary(alloc, base_cell)? else {
        return Ok(());
    };
    for kind in KINDS {
        let cell = Cell { kind, ..base_cell };
        if let Some(summary) = board.summary(alloc, cell)? {
            print_line(rt, cell, summary, base, csv)?;
        }
    }
    Ok(())
}

fn print_line<R: Print>(
    rt: &R,
    cell: Cell,
    summary: Summary,
    base: Summary,
    csv: bool,
) -> anyhow::Result<()> {
    let (measure, unit) = (cell.measure.name(), cell.measure.unit());
    let (keys, threads, kind) = (cell.keys, cell.threads, cell.kind.name());
    let (median, median_tenth) = (summary.median / 10, summary.median % 10);
    let (least, least_tenth) = (summary.least / 10, summary.least % 10);
    let (greatest, greatest_tenth) = (summary.greatest / 10, summary.greatest % 10);
    let ratio = hundredths(summary.median, base.median);
    let (whole, part) = (ratio / 100, ratio % 100);
    if csv {
        print!(rt; "{measure},{unit},{keys},{threads},{kind},{median}.{median_tenth}")?;
        println!(rt; ",{whole}.{part:02},{least}.{least_tenth},{greatest}.{greatest_tenth}")?;
    } else {
        print!(rt; "{measure:<20}  {unit:<5} {keys:>8} {threads:>8}  {kind:<24}")?;
        print!(rt; " {median:>7}.{median_tenth} {whole:>5}.{part:02}")?;
        println!(rt; " {least:>7}.{least_tenth} {greatest:>7}.{greatest_tenth}")?;
    }
    Ok(())
}

// Returns `part` divided by `whole`, in hundredths and rounded.
fn hundredths(part: u64, whole: u64) -> u64 {
    part.saturating_mul(100).saturating_add(whole / 2) / whole.max(1)
}
