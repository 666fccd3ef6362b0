//! Sending messages.

ghost use Rattle.std.specs.Prelude.{◌≡◌, ◌<◌, length, Some, slice_get, OnOk, OnErr};
ghost use Rattle.std.specs.Io.KnownBytes.{Appends};
ghost use Rattle.std.specs.List.{flat_map};
ghost use Rattle.json_rpc.specs.Outgoing.{nothing};
ghost use Rattle.message_frames.specs.Writing.{frame};
ghost use Rattle.tera_exchange.specs.Sent.{AppendsPart};

use json_rpc::Outbox;
use message_frames::write_frame;
use std::alloc::Global;
use std::io;
use std::io::Write;
use tera_show::write_all;

/// Writes the messages that are to be sent, each after its header, in their order. After that nothing is to be sent.
pub(crate) fn send<W: Write>(alloc: Global, writer: &mut W, out: &mut Outbox) -> io::Result<()>
    ensures written { OnOk result (Appends (W.contents writer.old) (W.contents writer.new) (flat_map frame out.old.sent)) }
    ensures sent { OnOk result (out.new ≡ nothing) }
    ensures in_part { OnErr result
        (AppendsPart (W.contents writer.old) (W.contents writer.new) (flat_map frame out.old.sent)) }
    ensures unsent { OnErr result (out.new ≡ out.old) }
{
    for number in 0..out.len() {
        send_one(alloc, writer, body(out, number))?;
    }
    out.clear();
    Ok(())
}

// The message of this number.
fn body(out: &Outbox, number: usize) -> &[u8]
    requires { number < length out.now.sent }
    ensures { slice_get out.now.sent number ≡ Some result.now }
{
    match out.get(number) {
        Some(body) => body,
        None => &[],
    }
}

fn send_one<W: Write>(alloc: Global, writer: &mut W, body: &[u8]) -> io::Result<()>
    ensures written { OnOk result (Appends (W.contents writer.old) (W.contents writer.new) (frame body.now)) }
    ensures in_part { OnErr result
        (AppendsPart (W.contents writer.old) (W.contents writer.new) (frame body.now)) }
{
    let framed = write_frame(alloc, body)?;
    write_all(writer, framed.as_slice())?;
    Ok(())
}
