//! Scripts followed act by act, each the contract of a function that does nothing.

ghost use Rattle.std.specs.Prelude.{◌≡◌, ℕ, [], ◌∷◌, true, false, Some, None};
ghost use Rattle.pt_tree.specs.Blocks.{of_module};
ghost use Rattle.pt_tree.specs.declared.act.ActKind.TheVariants.{Match};
ghost use Rattle.sem_control.specs.control.Control.{context_at, go, turn};
ghost use Rattle.sem_control.specs.control.Events.{after, raises, raises_again};
ghost use Rattle.sem_control.specs.control.Frames.{stms};
ghost use Rattle.sem_control.specs.control.Jump.{jump, refused, lands, into_block, out_of_finally, no_statement};
ghost use Rattle.sem_control.specs.control.Lines.{numbers, item, opens, acts_from, ask_of, control_after, jump_after, lines_from, lines_of, starts};
ghost use Rattle.sem_control.specs.control.Reached.{kind_of};
ghost use Rattle.sem_control.specs.control.Samples.{at_a_match, at_the_global, back_at_the_store, counting, ends_in_global, generating, going_on, global_nest, in_a_handler, in_the_handler, jumping, lambda_below, lambda_starts, last_of_jumping, names_its_exception, nested, nested_call, nested_lines, on_one_line, part_without_acts, raised_from, raises_alone, raises_in_a_handler, spread_body, spread_lines, spreading, twice, two_items};
ghost use Rattle.sem_control.specs.control.Turn.{raised, raising_again, throw};

/// The line events of four scripts, and how many acts the first has.
pub fn scripts_are_followed()
    ensures counting { lines_of counting twice ≡ 1 ∷ 2 ∷ 3 ∷ 2 ∷ 3 ∷ 2 ∷ 4 ∷ [] }
    ensures counted { acts_from (starts counting) twice ≡ 26 }
    ensures on_one_line { lines_of on_one_line twice ≡ 1 ∷ 2 ∷ 2 ∷ 2 ∷ [] }
    ensures generating { lines_of generating two_items ≡ 1 ∷ 4 ∷ 2 ∷ 5 ∷ 4 ∷ 3 ∷ 5 ∷ 4 ∷ [] }
    ensures nested { lines_of nested nested_call ≡ nested_lines }
{}

/// Jumps in a script: into the body of a `for`, out of a `finally` part, and out of a loop.
pub fn jumps_are_followed()
    ensures into_a_for { jump_after 0 jumping [] 2 ≡ refused into_block }
    ensures out_of_a_finally { jump_after 8 jumping (item false ∷ []) 7 ≡ refused out_of_finally }
    ensures out_of_a_loop { jump_after 6 jumping (item true ∷ []) 7 ≡ lands (stms 13 last_of_jumping []) }
    ensures to_no_statement { jump_after 0 jumping [] 5 ≡ refused no_statement }
{}

/// A lambda returns on its own line, and what is spread takes the line of its call.
pub fn lines_of_calls_are_followed()
    ensures lambda { lines_of lambda_below (opens lambda_starts ∷ []) ≡ 1 ∷ 3 ∷ 2 ∷ 1 ∷ [] }
    ensures spread { lines_of spreading (opens (starts spread_body) ∷ []) ≡ spread_lines }
{}

/// `raise` alone in a block that a handler calls: its own block has no active exception, the block
/// around has one, and by that it raises again. With none at all it raises anew.
pub fn a_bare_raise_is_followed()
    ensures around { context_at (control_after 4 (starts in_a_handler) in_the_handler) ≡ Some 1 }
    ensures alone { context_at (starts raises_alone) ≡ None }
    ensures asks { ask_of (turn numbers (starts raises_alone)) ≡ Some (throw raising_again) }
    ensures again { after {V = ℕ} (Some 1) (throw raising_again) (raised 1) ≡ raises_again 1 ∷ [] }
    ensures anew { after {V = ℕ} None (throw raising_again) (raised 2) ≡ raises 2 ∷ [] }
{}

/// A `finally` part without acts is a part of its own: from the one behind it nothing jumps there.
pub fn a_part_without_acts_is_not_entered()
    ensures { jump_after 4 part_without_acts [] 5 ≡ refused out_of_finally }
{}

/// A jump to a statement without acts lands there: a raise from there goes through the `finally`
/// part around it, and a second jump may go back.
pub fn a_jump_to_no_act_is_followed()
    ensures lands_there { jump_after 1 ends_in_global [] 3 ≡ lands at_the_global }
    ensures raised_there { lines_from (raised_from at_the_global) [] ≡ 5 ∷ [] }
    ensures goes_on { lines_from (go numbers at_the_global) [] ≡ 5 ∷ [] }
    ensures back { jump (of_module ends_in_global) global_nest 2 ≡ lands back_at_the_store }
{}

/// A raise of a tool where a handler is found goes on from the tests of handlers: the name isn't
/// bound yet, and none is unbound; the next test is that of the `try` around.
pub fn a_raise_at_a_match_is_followed()
    ensures next { kind_of (control_after 6 (starts names_its_exception) at_a_match) ≡ Some Match }
    ensures told { lines_of names_its_exception at_a_match ≡ 1 ∷ 2 ∷ 3 ∷ 4 ∷ 6 ∷ 7 ∷ [] }
{}

/// Where a raise goes on behind a `finally` part in a handler, the handler's exception is active.
pub fn a_raise_that_goes_on_is_followed()
    ensures goes_on { control_after 8 (starts raises_in_a_handler) in_the_handler ≡ going_on }
    ensures active { context_at going_on ≡ Some 1 }
{}
