//! What recovery finds on its way, in an image of two full lines.

ghost use Rattle.pblk_reference.specs.Ready.{IsOfAcceptedShape};

use crate::recovery::harness::image_of;
use crate::recovery::images::two_full;
use image_crew::Units;
use pblk_reference::{Image, counted, end_of, head, records, start_of};
use std::alloc::{AllocError, Global};
use std::test::Fail;

// The head's line, sequence number and front, and how many pairs its line's end record has.
type HeadParts = (Option<(u32, u64, u64)>, Option<usize>);

// How many records there are, how many of them count, the head, and whether line 2 has a start
// record.
type Parts = (usize, usize, HeadParts, bool);

fn head_of(alloc: Global, image: &Image) -> Result<HeadParts, AllocError>
    requires { IsOfAcceptedShape image.now }
{
    let Some(start) = head(alloc, image)? else {
        return Ok((None, None));
    };
    let pairs = end_of(alloc, image, 1, &start)?.map(|end| end.pairs.len());
    Ok((Some((start.line, start.seq, start.front)), pairs))
}

fn parts_of(alloc: Global, all: Units) -> Result<Option<Parts>, AllocError> {
    if all.len() != 2 {
        return Ok(None);
    }
    let image = image_of(all);
    let found = head_of(alloc, &image)?;
    let borne = records(alloc, &image)?.len();
    let kept = counted(alloc, &image)?.len();
    let third = start_of(alloc, &image, 2)?.is_some();
    Ok(Some((borne, kept, found, third)))
}

#[test]
fn the_parts_of_two_full_lines(rt: HostRuntime) -> Result<(), Fail> {
    let wanted = (80, 80, (Some((1, 2, 40)), Some(40)), false);
    assert_eq!(rt; parts_of(rt.alloc(), two_full(rt.alloc())?)?, Some(wanted));
    Ok(())
}
