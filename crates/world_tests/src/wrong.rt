//! Worlds with one wrong step.

ghost use Rattle.pblk_world.specs.Legal.{IsLegal};
ghost use Rattle.world_tests.specs.Steps.{image};
ghost use Rattle.world_tests.specs.Simple.{begun_world};
ghost use Rattle.world_tests.specs.Wrong.{open_image, answer_isnt_known, author_is_none, begins_twice, blank_line_is_freed, blank_line_is_stray, chunk_is_anothers, copy_holds_another_sector, data_before_start, data_in_failed_line, done_program_is_lost, done_program_is_offered_again, entry_is_dropped, failed_program_lands, failure_lands_all, first_is_taken, forgets, freed_before_a_start_landed, front_isnt_synced, knows_the_future, latest_copy_is_void, lba_is_past_the_end, line_is_freed_twice, line_is_opened_twice, line_isnt_open, line_isnt_the_first, mark_is_anothers, misses_its_own_log, never_begins, newest_line_is_freed, open_line_is_reset, order_is_broken, position_is_skipped, program_is_noted_as_reset, program_lands_twice, resets_before_begin, row_is_of_a_blank_line, seq_is_skipped, stale_copy_wins, start_is_of_another_mount, start_skips_a_seq, stopped_unit_writes, stripe_isnt_known, stripe_isnt_placed, unit_decides, unit_is_busy, width_isnt_the_lines};

/// A mount begins once, first, with no Open chunk, and with the end, the next sequence number and
/// the strays of its image.
pub fn wrong_beginnings_are_refused()
    ensures first { ¬ IsLegal image first_is_taken }
    ensures seq { ¬ IsLegal image seq_is_skipped }
    ensures stray { ¬ IsLegal image blank_line_is_stray }
    ensures twice { ¬ IsLegal image begins_twice }
    ensures never { ¬ IsLegal image never_begins }
    ensures open_chunk { ¬ IsLegal open_image begun_world }
{}

/// An entry is taken at the next position, for a sector below the capacity, with its mark; a copy
/// wins exactly where its source is the latest, and holds its sector.
pub fn wrong_takes_are_refused()
    ensures position { ¬ IsLegal image position_is_skipped }
    ensures lba { ¬ IsLegal image lba_is_past_the_end }
    ensures mark { ¬ IsLegal image mark_is_anothers }
    ensures stale { ¬ IsLegal image stale_copy_wins }
    ensures void { ¬ IsLegal image latest_copy_is_void }
    ensures sector { ¬ IsLegal image copy_holds_another_sector }
{}

/// The first Free line is opened, and its start record says what the mount knows.
pub fn wrong_openings_are_refused()
    ensures later_line { ¬ IsLegal image line_isnt_the_first }
    ensures twice { ¬ IsLegal image line_is_opened_twice }
    ensures seq { ¬ IsLegal image start_skips_a_seq }
    ensures first_seq { ¬ IsLegal image start_is_of_another_mount }
    ensures front { ¬ IsLegal image front_isnt_synced }
    ensures row { ¬ IsLegal image row_is_of_a_blank_line }
    ensures width { ¬ IsLegal image width_isnt_the_lines }
{}

/// A line is freed once, where it has a sequence number and is older than a start record that has
/// landed.
pub fn wrong_frees_are_refused()
    ensures newest { ¬ IsLegal image newest_line_is_freed }
    ensures early { ¬ IsLegal image freed_before_a_start_landed }
    ensures twice { ¬ IsLegal image line_is_freed_twice }
    ensures blank { ¬ IsLegal image blank_line_is_freed }
{}

/// A stripe is placed on an idle unit, in an open line, in line order, data after the start record
/// and not in a failed line, with the entries that wait.
pub fn wrong_stripes_are_refused()
    ensures early { ¬ IsLegal image data_before_start }
    ensures busy { ¬ IsLegal image unit_is_busy }
    ensures order { ¬ IsLegal image order_is_broken }
    ensures entry { ¬ IsLegal image entry_is_dropped }
    ensures closed { ¬ IsLegal image line_isnt_open }
    ensures failed { ¬ IsLegal image data_in_failed_line }
    ensures chunk { ¬ IsLegal image chunk_is_anothers }
{}

/// A unit programs the stripe that was placed on it and that it knows, resets what was given up, and
/// does nothing once it was stopped.
pub fn wrong_commands_are_refused()
    ensures early_reset { ¬ IsLegal image resets_before_begin }
    ensures unplaced { ¬ IsLegal image stripe_isnt_placed }
    ensures unknown { ¬ IsLegal image stripe_isnt_known }
    ensures reset { ¬ IsLegal image open_line_is_reset }
    ensures stopped { ¬ IsLegal image stopped_unit_writes }
    ensures failure { ¬ IsLegal image failure_lands_all }
{}

/// An answer is that of a known event, once, and by its outcome.
pub fn wrong_answers_are_refused()
    ensures unknown { ¬ IsLegal image answer_isnt_known }
    ensures failed { ¬ IsLegal image failed_program_lands }
    ensures twice { ¬ IsLegal image program_lands_twice }
    ensures lost { ¬ IsLegal image done_program_is_lost }
    ensures again { ¬ IsLegal image done_program_is_offered_again }
    ensures reset { ¬ IsLegal image program_is_noted_as_reset }
{}

/// An event names what its author knew: prefixes of the logs, its own whole, and none shorter than
/// before.
pub fn wrong_knowledge_is_refused()
    ensures future { ¬ IsLegal image knows_the_future }
    ensures forgotten { ¬ IsLegal image forgets }
    ensures own { ¬ IsLegal image misses_its_own_log }
    ensures unit { ¬ IsLegal image unit_decides }
    ensures author { ¬ IsLegal image author_is_none }
{}
