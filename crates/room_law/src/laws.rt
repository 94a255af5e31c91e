//! Laws of the states of runs: each is the contract of a function that does nothing.

ghost use Rattle.std.specs.Prelude.{◌≡◌, ◌≤◌, ◌<◌, ◌+◌, ◌-◌, ◌*◌, ◌/◌, Some};
ghost use Rattle.room_law.specs.Counting.{Sizes, AreSizes, State, Victim, Loss, Step};
ghost use Rattle.room_law.specs.Counting.{May, MayTakeUsers, after, IsReached, IsInZone, IsDue};
ghost use Rattle.room_law.specs.Counting.{addresses, waiting_count, space_limit};
ghost use Rattle.room_law.specs.Counting.{begun_of, under_way, fresh};

/// Where no line is to be reset, fewer entries wait than data addresses are left. In the zone they
/// leave at least the addresses of a line less a stripe, and one. Above the zone they are at most
/// those addresses, and as many as users may claim. There is always a line left, and no more
/// entries wait than addresses are left; fewer, where a stripe has two addresses or more.
pub fn what_waits_has_room()
    ensures reset { (z : Sizes) (s : State) → AreSizes z → IsReached z s
        → s.resetting ≡ 0 → waiting_count s < addresses z s }
    ensures zone { (z : Sizes) (s : State) → AreSizes z → IsReached z s
        → s.resetting ≡ 0 → IsInZone z s
        → z.line - z.stripe + 1 ≤ addresses z s - waiting_count s }
    ensures above { (z : Sizes) (s : State) → AreSizes z → IsReached z s
        → 2 * z.line < addresses z s
        → (waiting_count s ≤ (addresses z s - 2 * z.line) / z.stripe + (z.line - z.stripe) + 1)
        × (waiting_count s < addresses z s) }
    ensures line { (z : Sizes) (s : State) → AreSizes z → IsReached z s
        → z.line ≤ addresses z s }
    ensures ever { (z : Sizes) (s : State) → AreSizes z → IsReached z s
        → waiting_count s ≤ addresses z s }
    ensures strict { (z : Sizes) (s : State) → AreSizes z → IsReached z s
        → 2 ≤ z.stripe → waiting_count s < addresses z s }
{}

/// What is missing of two lines in the zone: the addresses of the lines that are being reset, one
/// for each copy of the victim at work that was begun, less those that wait or are under way, and
/// less than two stripes more.
pub fn what_is_missing_is_reset_or_copied()
    ensures { (z : Sizes) (s : State) → AreSizes z → IsReached z s → IsInZone z s
        → 2 * z.line + waiting_count s + under_way s.copy
        < addresses z s + z.line * s.resetting + begun_of s.victim + 2 * z.stripe }
{}

/// The space limit never falls. So the greatest so far is the latest, and users' entries lie below
/// it.
pub fn the_space_limit_never_falls()
    ensures rises { (z : Sizes) (s : State) (step : Step) → AreSizes z → IsReached z s
        → May z s step → space_limit z s ≤ space_limit z (after z s step) }
    ensures latest { (z : Sizes) (s : State) → AreSizes z → IsReached z s
        → s.reach ≡ space_limit z s }
    ensures users { (z : Sizes) (s : State) → AreSizes z → IsReached z s
        → s.users ≤ space_limit z s }
{}

/// In the zone no entry that waits is a user's, and no user's entry may be taken.
pub fn no_user_waits_in_the_zone()
    ensures waits { (z : Sizes) (s : State) → AreSizes z → IsReached z s
        → IsInZone z s → s.users ≤ s.placed }
    ensures taken { (z : Sizes) (s : State) (loss : Loss) → AreSizes z → IsReached z s
        → IsInZone z s → ¬ MayTakeUsers s loss }
{}

/// Of the victim at work the copies that were begun and the live sectors, without one whose copy is
/// under way, are at most the addresses of a line less a stripe.
pub fn copies_of_a_victim_fit_a_line()
    ensures { (z : Sizes) (s : State) (v : Victim) → AreSizes z → IsReached z s
        → s.victim ≡ Some v → v.begun + v.live + z.stripe ≤ z.line + fresh s.copy }
{}

/// In the zone each position up to which pads were asked for while collection wasn't due is placed.
/// It is said of stripes of two addresses or more, since no others are padded.
pub fn asks_before_due_are_placed()
    ensures { (z : Sizes) (s : State) → AreSizes z → IsReached z s
        → 2 ≤ z.stripe → IsInZone z s → s.before_due ≤ s.placed }
{}

/// Where less than a stripe waits and the space limit is less than 16 past what is taken,
/// collection is due, if a line is long enough.
pub fn collection_is_due_where_space_is_short()
    ensures { (z : Sizes) (s : State) → AreSizes z → (16 + z.stripe) * z.stripe ≤ 2 * z.line
        → s.placed ≤ s.taken → waiting_count s < z.stripe → space_limit z s < s.taken + 16
        → IsDue s }
{}
