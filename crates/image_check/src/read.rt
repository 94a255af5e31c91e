//! Certificates, read from bytes.

ghost use Rattle.std.specs.Prelude.{◌≡◌, ◌∷◌, [], ◌++◌, List, IfOk, IfErr, OnOk, true};
ghost use Rattle.image_check.specs.declared.certificate.Certificate.{Certificate as Whole};
ghost use Rattle.image_check.specs.declared.read.CertErr.TheVariants.{Memory};
ghost use Rattle.image_check.specs.declared.said.Said.{Said as AnySaid};
ghost use Rattle.image_check.specs.Right.{IsInOrder};
ghost use Rattle.image_check.specs.Text.{Fits, FitsSaid, HasRead, RefusesText, follows, text_of, with_said};

use crate::certificate::Certificate;
use crate::cut::cut_at;
use crate::said::{Said, follows, may_stop, said_in};
use pblk_model::Items;
use std::alloc::{AllocError, Global};
use thiserror::Error;

/// Why bytes are no certificate.
#[derive(Clone, Copy, Debug, PartialEq, Eq, Error)]
pub enum CertErr {
    /// This line is the first that isn't of the grammar, or one past the last line where a line is
    /// missing. Lines are numbered from 1, and a number stands still at 2^32 - 1.
    #[error("line {0} is no line of a certificate")]
    Form(u32),
    /// There wasn't enough memory.
    #[error("out of memory")]
    Memory,
}

impl From<AllocError> for CertErr {
    ghost from_gives = { λ _ e. e ≡ Memory };

    fn from(_e: AllocError) -> Self {
        CertErr::Memory
    }
}

// What was read of a certificate, and its last line.
#[derive(Debug, Drop)]
struct Reader {
    certificate: Certificate,
    last: Option<Said>,
}

impl Certificate {
    /// The certificate that these bytes are.
    ///
    /// It is lines, each ended by a newline: `head LINE` or `head none`; `end POSITION`; `line LINE
    /// SEQ FULL` with FULL 0 or 1; `bear POSITION LINE ADDRESS`; `win LBA POSITION LINE ADDRESS`;
    /// `live LINE COUNT`. They stand in this order, and each kind rises by its first number. A
    /// number is spelled without a leading 0 and is below 2^64, and a line and an address below
    /// 2^32.
    ///
    /// Refused: `Form` with the first line that isn't so, or one past the last line where one of
    /// the first two is missing; `Memory` where there isn't enough.
    pub fn read(alloc: Global, bytes: &[u8]) -> Result<Certificate, CertErr>
        // The bytes, to their end, are the text of the certificate.
        ensures spelled { IfOk result (λ c. bytes.now ≡ text_of c) }
        ensures order { IfOk result IsInOrder }
        ensures fits { IfOk result Fits }
        ensures refused { IfErr result (RefusesText bytes.now) }

        // The text of a certificate in order is read, unless there is no memory.
        ensures only { (c : Whole) → IsInOrder c → Fits c → bytes.now ≡ text_of c
            → IfErr result (λ e. e ≡ CertErr.Memory) }
    {
        let mut reader = Reader::new(alloc);
        let mut number: u32 = 1;
        let mut rest = bytes;
        while let Some((line, more)) = cut_at(rest, b'\n') {
            let Some(said) = said_in(line) else {
                return Err(CertErr::Form(number));
            };
            if !follows(&reader.last, &said) {
                return Err(CertErr::Form(number));
            }
            reader.add(said)?;
            number = number.saturating_add(1);
            rest = more;
        }
        if !rest.is_empty() || !may_stop(&reader.last) {
            return Err(CertErr::Form(number));
        }
        Ok(reader.certificate)
    }
}

impl Reader {
    // A reader that has read nothing.
    fn new(alloc: Global) -> Reader
        ensures { HasRead result.certificate result.last [] }
    {
        Reader {
            certificate: Certificate {
                head: None,
                end: 0,
                lines: Items::new(alloc),
                bears: Items::new(alloc),
                wins: Items::new(alloc),
                lives: Items::new(alloc),
            },
            last: None,
        }
    }

    // Adds what a line says, which may stand behind the last one.
    fn add(&mut self, said: Said) -> Result<(), AllocError>
        requires fits { FitsSaid said }
        requires follows { follows self.old.last said ≡ true }
        ensures { (saids : List AnySaid) → HasRead self.old.certificate self.old.last saids
            → OnOk result (HasRead self.new.certificate self.new.last (saids ++ said ∷ [])) }
    {
        self.certificate.add(said)?;
        self.last = Some(said);
        Ok(())
    }
}

impl Certificate {
    // Adds what a line says.
    fn add(&mut self, said: Said) -> Result<(), AllocError>
        ensures { OnOk result (self.new ≡ with_said said self.old) }
    {
        match said {
            Said::Head(head) => {
                self.head = head;
                Ok(())
            }
            Said::End(end) => {
                self.end = end;
                Ok(())
            }
            Said::Line(row) => self.lines.push(row),
            Said::Bear(bearer) => self.bears.push(bearer),
            Said::Win(win) => self.wins.push(win),
            Said::Live(live) => self.lives.push(live),
        }
    }
}
