//! The line of a parity that is refused.

ghost use Rattle.std.specs.Prelude.{◌≡◌, ◌≤◌, ◌++◌, ◌∷◌, []};
ghost use Rattle.pblk_model.specs.Text.{newline, spaced};
ghost use Rattle.command_text.specs.Says.{Says};
ghost use Rattle.pblk_cli.specs.Parities.{parity_line};

use command_text::{tell, tell_memory, tell_number};
use itoa::Buffer;
use pblk_outside::Sink;
use stripe_parity::ParityErr;

/// Writes the line of a parity that is refused.
pub(crate) fn tell_parity<O: Sink>(out: &mut O, error: &ParityErr)
    ensures said { Says (parity_line error.now) (O.view out.old) (O.view out.new) }
    ensures same_told { (O.view out.new).told ≡ (O.view out.old).told }
    ensures never_falls { (O.view out.old).faults ≤ (O.view out.new).faults }
{
    match *error {
        ParityErr::Magic => tell(out, &[b"parity Magic\n"]),
        ParityErr::Version => tell(out, &[b"parity Version\n"]),
        ParityErr::Numbers => tell(out, &[b"parity Numbers\n"]),
        ParityErr::Short(bytes) => tell_number(out, b"parity Short", bytes),
        ParityErr::Long => tell(out, &[b"parity Long\n"]),
        ParityErr::State { unit, chunk } => {
            tell_numbers(out, b"parity State", unit, u64::from(chunk));
        }
        ParityErr::Differs { unit, chunk } => {
            tell_numbers(out, b"parity Differs", unit, u64::from(chunk));
        }
        ParityErr::Drive { unit, event } => tell_numbers(out, b"parity Drive", unit, event),
        ParityErr::Memory => tell_memory(out),
    }
}

// Writes the line of a word and two numbers.
fn tell_numbers<O: Sink>(out: &mut O, word: &[u8], first: u32, second: u64)
    ensures said { Says (word.now ++ spaced (first ∷ second ∷ []) ++ newline)
        (O.view out.old) (O.view out.new) }
    ensures same_told { (O.view out.new).told ≡ (O.view out.old).told }
    ensures never_falls { (O.view out.old).faults ≤ (O.view out.new).faults }
{
    let mut of_first = Buffer::new();
    let mut of_second = Buffer::new();
    tell(
        out,
        &[
            word,
            b" ",
            of_first.format(first).as_bytes(),
            b" ",
            of_second.format(second).as_bytes(),
            b"\n",
        ],
    );
}
