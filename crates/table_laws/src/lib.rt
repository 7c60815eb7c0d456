//! Whole runs of the protocol, over tables: what holds after every list of moves that workers and
//! the clearinghouse make.
//!
//! The theorems are contracts of functions that do nothing. No grant has two live holders
//! (`no_two_live_holders`), no slot is filled twice (`no_slot_filled_twice`), the work of each open
//! record can still come from somewhere (`nothing_lost`), and where all wanted work has live
//! holders, one of these can go on (`some_holder_has_work`). Every fill, every Result and every
//! recorded outcome is what the serial meaning says (`every_fill_is_the_serial_value`,
//! `every_result_is_its_tasks_outcome`, `every_recorded_outcome_is_the_meaning`), and an outcome
//! stays (`a_recorded_outcome_stays`). Runs show that moves lead somewhere, one of them to a
//! recorded outcome (`a_run_ends_with_its_outcome`); and made-up views show that no group of
//! clauses holds of everything (`no_group_holds_of_all_views`). `docs/SAFETY.md` tells the argument
//! in words.
//!
//! The world is seen as a *view* (specs/View): a table for each kind of fact, who works, who was
//! sent what, who holds it, in place of nodes, packets and bytes. A *move* updates a few tables
//! (specs/Moves) where its guard allows it (specs/Guards, specs/Acts). What is true of each view
//! that moves lead to stands in groups of clauses: Names, Fills, Leavers, Homes, Rooted, Kin,
//! Requests, Cases, Rosters, Known, Later, Tasks, Epochs, Heirs. A *run* (specs/Runs) is a list of
//! moves in which each change of a content has its cause (specs/Causes), a turn, an outcome that
//! came, or a redo, and turns end as the program's bodies do; of its views Values is true as well.
//! The serial meaning comes in as a few functions with the facts that are used of it
//! (specs/Meaning), each with the law of the crate `serial_meaning` that gives it; the meaning of a
//! program on an input (specs/Program) has them (`a_programs_meaning_is_serial`).
//!
//! Left out are the checkpoint's disk, which frame is granted, and when, and running out of memory.
//! A guard asks what its case of the protocol gives, mostly less. That each step of a worker, of
//! the clearinghouse and of a world is a list of these moves, on a view that shows it, is said by
//! the crates of the tie above this one; here the theorems speak of tables alone.
//!
//! In the definitions v and w are views, i and j names, g, h and k grants, t and u transfers, c and
//! d contents, s is a sub, n and m are frame numbers; m is the meaning of a job where there is one.
//!
//! # Wrong moves
//!
//! Each of these was tried, as a move or a guard made so, and is refused where the clause on the
//! right would have to be kept.
//!
//! | wrong move | clause |
//! |---|---|
//! | a grant gets a name that was used, as that of the record that is redone | Names `one` |
//! | a used name starts again | Names `path` |
//! | the hop that is taken isn't noted | Names `held_seen` |
//! | the hop of a sub that is gone is forgotten; an equal hop is taken again | Fills `fill_closed`, Leavers `acked_shut` |
//! | one that departs is a member again | Names `path` |
//! | one that departs takes Offers | Names `frozen_offered`, Leavers `said_empty` |
//! | one that departs changes what it holds, by a turn, a Result, an Abort | Names `frozen_offered` |
//! | an Offer has the sub's own hop | Names `one`, `path` |
//! | an Offer leaves records out, or begins frame numbers anew | Fills `fill_closed` (heads come from heads) |
//! | a departure offers not all subs, as finished ones | Names `frozen_offered` |
//! | a departure in spite of a pending request | Requests `member_waits` |
//! | a sub is released without an acknowledgement | Leavers `offer_waits`, Cases `record_case` |
//! | Leave before all Offers are acknowledged | Leavers `said_empty`, `said_acked` |
//! | Leave while a live thief lacks its Grant | Requests `awaited` |
//! | shown left without a Leave | Leavers `left_said` |
//! | shown left, the work being with somebody else than the heir leads to | Kin `left_path` |
//! | shown left to one that isn't live | Heirs `had_end` |
//! | a Refuse of another seq, or any roster, clears the request | Requests `unanswered`, Cases `record_case` |
//! | a Grant of another seq or victim is taken | Requests `unanswered` |
//! | a Steal is answered anew | Requests `one_grant`, `one_reply` |
//! | a thief that isn't shown live gets an answer | Known `thief_listed` |
//! | a Steal goes to a name that nobody had | Names `victim_used` |
//! | a clearinghouse opens in an epoch that was, or under another name | Epochs `kept_past`, `names_past`, Rosters `lost_true` |
//! | a new clearinghouse forgets whom it lost | Cases `record_case`, Requests `unanswered` |
//! | somebody is lost for no reason | Rosters `lost_true` |
//! | an older roster is kept, or one of another epoch | Known `thief_listed`, Rosters `lost_true` |
//! | a roster forgets who was dead, or keeps its version | Rosters `lost_true`, `grows` |
//! | a Result is acknowledged alone though its record is there | Kin `unsettled` |
//! | a sub is dropped for no reason | Cases `record_case` |
//! | a parent host is renamed at will | Homes `home`, Kin `on_path` |
//! | a record is kept, and a Result that comes again fills again | Fills `once` |
//! | a slot has no debtor after a redo; a kid has a number below its successor's | Fills `subs_sound` |
//! | values go into slots in the order in which they come | Values `agree` |
//! | a successor stands at a kid's place; a join goes on at a place of 1,024 steps | Values `agree` |
//! | a kid's 'too deep' is taken as a value; an outcome without its Result | Values `agree` |
//! | a Grant carries another task than the frame that was stolen; a record's task changes | Tasks `record_task` |
//! | a Result tells another outcome than its content's | Values `results_agree` |
//! | the house grants another task than the job's first | Tasks `root_task`, Values `agree` |
//! | the house records what no Result of the root told | Values `stored_agrees` |
//! | the house records over an outcome, or grants the root when one is recorded | Tasks `root_open` |
//!
//! Nothing here needs that an heir is another worker: who offers to itself waits, frozen, for good.
//! Answers that go out before the outcome is on the disk are a matter of the checkpoint.
#![tactic(auto)]

mod laws;

pub use laws::{
    a_departed_sub_lives_on, a_grant_is_one_task, a_later_epoch_is_new, a_lost_kid_is_redone,
    a_programs_meaning_is_serial, a_recorded_outcome_stays, a_run_ends_with_its_outcome,
    a_stolen_kid_comes_back, a_verdict_tells_of_a_loss, each_cause_is_a_change,
    each_transfer_comes_of_a_grant, every_fill_is_the_serial_value,
    every_recorded_outcome_is_the_meaning, every_result_is_its_tasks_outcome, heirs_lead_somewhere,
    no_group_holds_of_all_views, no_slot_filled_twice, no_two_live_holders, nothing_lost,
    only_live_thieves_are_awaited, some_holder_has_work, what_is_kept,
};
