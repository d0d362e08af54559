//! The labels of a world, written as lines.
ghost use Rattle.std.specs.Prelude.{◌++◌, ◌∷◌, [], OnOk, OnErr, IsTrue};
ghost use Rattle.std.specs.Fmt.{decimal};
ghost use Rattle.std.specs.Io.KnownBytes.{Appends};
ghost use Rattle.flurry_run_lines.specs.Labels.{label_text, reply_text};

use flurry_base::reply::KeptReply;
use flurry_run_streams::Sink;
use flurry_steps_theory::Label;
use std::io;

/// Writes a label on a line of its own.
///
/// Linear in the length of the line.
///
/// # Errors
///
/// Returns an error if `writer` fails.
pub fn write_label<F, W: Sink>(label: &Label<u64, u64, F>, writer: &mut W) -> io::Result<()>
    ensures failed { OnErr result (IsTrue (W.has_failed writer.new)) }
    ensures bytes { OnOk result
        (Appends (W.contents writer.old) (W.contents writer.new) (label_text label.now ++ 10 ∷ [])) }
{
    match label {
        Label::Begin(party, _) => writer.write_line(format_args!("begin {party}")),
        Label::Decide(party, reply) => write_reply("decide", *party, reply, writer),
        Label::Reply(party, reply) => write_reply("reply", *party, reply, writer),
        Label::Refused(party) => writer.write_line(format_args!("refused {party}")),
        Label::Wipe(party, table, index) => {
            writer.write_line(format_args!("wipe {party} {table} {index}"))
        }
        Label::Read(party, key, value) => {
            writer.write_line(format_args!("read {party} {key} {value}"))
        }
        Label::End(party) => writer.write_line(format_args!("end {party}")),
        Label::Opened(table) => writer.write_line(format_args!("opened {table}")),
        Label::Placed(table) => writer.write_line(format_args!("placed {table}")),
        Label::Moved(table, index) => writer.write_line(format_args!("moved {table} {index}")),
        Label::Published(table) => writer.write_line(format_args!("published {table}")),
        Label::Silent(party) => writer.write_line(format_args!("silent {party}")),
    }
}

// Writes a word, the number of a party, and its reply.
fn write_reply<W: Sink>(
    word: &str,
    party: usize,
    reply: &KeptReply<u64, u64>,
    writer: &mut W,
) -> io::Result<()>
    ensures failed { OnErr result (IsTrue (W.has_failed writer.new)) }
    ensures bytes { OnOk result (Appends (W.contents writer.old) (W.contents writer.new)
        ((word.now ++ 32 ∷ (decimal party ++ 32 ∷ reply_text reply.now)) ++ 10 ∷ [])) }
{
    match reply {
        KeptReply::Value(None) | KeptReply::Pair(None) => {
            writer.write_line(format_args!("{word} {party} none"))
        }
        KeptReply::Value(Some(value)) | KeptReply::Pair(Some((_, value))) => {
            writer.write_line(format_args!("{word} {party} some {value}"))
        }
        KeptReply::Contains(there) => writer.write_line(format_args!("{word} {party} {there}")),
        KeptReply::New(value) => writer.write_line(format_args!("{word} {party} new {value}")),
        KeptReply::Changed { new, .. } => {
            writer.write_line(format_args!("{word} {party} changed {new}"))
        }
        KeptReply::Exists { current, .. } => {
            writer.write_line(format_args!("{word} {party} exists {current}"))
        }
    }
}
