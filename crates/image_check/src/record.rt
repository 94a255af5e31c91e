//! Records where they lie.

ghost use Rattle.std.specs.Prelude.{◌≡◌, ◌==◌, ◌&&◌, ◌||◌, nat_lt};
ghost use Rattle.pblk_model.specs.Contents.{is_newer};

use std::marker::Model;

/// What a written block bears: its line and the line's sequence number, its line address, its
/// position, and the sector whose content it holds, if it names one. Contracts see the model's
/// `Record`.
#[derive(Debug, Drop)]
pub(crate) struct Record<'a> {
    pub line: u32,
    pub seq: u64,
    pub at: u32,
    pub position: u64,
    pub lba: Option<u64>,
    pub sector: &'a [u8],
}

impl<'a> Model for Record<'a> {
    ghost use Rattle.pblk_model.specs.Records.{Record as Borne};

    ghost Value = { Borne };

    ghost view = { λ r. record {
      line = r.line;
      seq = r.seq;
      at = r.at;
      position = r.position;
      lba = r.lba;
      sector = r.sector.now;
    } };
}

impl<'a> Record<'a> {
    /// Whether the other record is newer: by position, then by sequence number, then by line
    /// address; of two that agree in these the one in the lesser line is.
    pub(crate) fn is_older_than(&self, other: &Record<'_>) -> bool
        ensures { result ≡ is_newer self.now other.now }
    {
        if self.position != other.position {
            return self.position < other.position;
        }
        if self.seq != other.seq {
            return self.seq < other.seq;
        }
        self.at < other.at || (self.at == other.at && other.line < self.line)
    }

    /// The same record once more. No byte of its sector is copied.
    pub(crate) fn again(&self) -> Record<'a>
        ensures { result ≡ self.now }
    {
        Record {
            line: self.line,
            seq: self.seq,
            at: self.at,
            position: self.position,
            lba: self.lba,
            sector: self.sector,
        }
    }
}
