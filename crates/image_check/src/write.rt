//! The text of a certificate.

ghost use Rattle.std.specs.Prelude.{◌≡◌, ◌++◌, OnOk};
ghost use Rattle.image_check.specs.Text.{text_of};

use crate::certificate::Certificate;
use crate::said::Said;
use std::alloc::AllocError;

impl Certificate {
    /// Adds the certificate's lines to `out`, in ASCII, each a word and numbers that are parted by
    /// one space, and ended by a newline: `head` with the line or `none`; `end`; then `line`,
    /// `bear`, `win` and `live` for what it says of each line, position, sector and line.
    pub fn write(&self, out: &mut Vec<u8>) -> Result<(), AllocError>
        ensures { OnOk result (out.new.items ≡ out.old.items ++ text_of self.now) }
    {
        Said::Head(self.head).write(out)?;
        Said::End(self.end).write(out)?;
        for row in self.lines.as_slice() {
            Said::Line(*row).write(out)?;
        }
        for bearer in self.bears.as_slice() {
            Said::Bear(*bearer).write(out)?;
        }
        for win in self.wins.as_slice() {
            Said::Win(*win).write(out)?;
        }
        for live in self.lives.as_slice() {
            Said::Live(*live).write(out)?;
        }
        Ok(())
    }
}
