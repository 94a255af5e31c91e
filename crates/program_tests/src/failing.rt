//! Files that can't be read or written, and an output that fails.

use crate::harness::check;
use std::test::Fail;

// Calls, which call of the files and of the output fails, and how they end.
const FAULTS: &str = "
# The image is read, then the script, then the image is written.
call=geometry|image ; images=drive small ; files=1 ; status=4 ; text=files Failed image/
call=geometry|image ; images=absent ; files=1 ; status=4 ; text=files Failed image/
call=run|image|script ; images=drive small ; files=1 ; status=4 ; text=files Failed image/
call=run|image|script ; images=drive small ; files=2 ; status=4 ; text=files Failed script/
call=run|image|script ; images=no ; files=2 ; status=4 ; text=files Failed script/
call=run|image|script ; images=drive small ; files=3 ; status=4 ; text=files Failed image/
call=run|image|script ; images=drive small ; files=4 ; text=h 0 0 5 17/kept 1/ ; after=drive small 5=17
call=run|image|script ; images=no ; files=3 ; status=3 ; text=image Short 2/
call=create|image ; images=absent ; files=1 ; status=4 ; text=files Failed image/
call=create|image ; images=drive small 5=17 ; files=1 ; status=4 ; text=files Failed image/
call=create|image ; images=drive small 5=17 ; files=2 ; text=created 4640/ ; after=drive small
call=create|image|--ring|65 ; images=drive small 5=17 ; files=1 ; status=3 ; text=image Settings 5/
call=create|image|image ; images=drive small 5=17 ; files=1 ; status=1 ; text=words/
# The output takes half of its text: the command did its work all the same.
call=create|image ; images=absent ; output=1 ; status=8 ; text=create ; after=drive small
call=create|image ; images=drive small 5=17 ; output=1 ; status=8 ; text=create ; after=drive small
call=run|image|script ; images=drive small ; output=1 ; status=8 ; text=h 0 0 5 1 ; after=drive small 5=17
# Of a refusal's line a part is written, and the status stays.
call=create|image|image ; images=drive small ; output=1 ; status=1 ; text=wor
call=run|image|absent ; images=drive small ; output=1 ; status=4 ; text=files M
call=run|image|absent ; images=drive small ; output=2 ; status=4 ; text=files Missing abs
# Both fail: the file first.
call=run|image|script ; images=drive small ; files=3 ; output=9 ; status=4 ; text=files Failed image/
call=geometry|image ; images=drive small ; files=1 ; output=2 ; status=4 ; text=files Failed im
# What an image holds is told of it alone.
call=show|image ; images=drive small 5=17 ; files=1 ; status=4 ; text=files Failed image/
call=show|image ; images=absent ; status=4 ; text=files Missing image/
call=show|image ; images=no ; status=3 ; text=image Short 2/
call=report|image ; images=drive small 5=17 ; output=1 ; status=8 ; text={\"capacity\":64,\"closed\":0,\"counted\":1,\"end\":1,\"free\"
";

#[test]
fn faults_are_answered(rt: HostRuntime) -> Result<(), Fail> {
    check(&rt, rt.alloc(), "script=thread/w 5 1 17/", FAULTS)
}
