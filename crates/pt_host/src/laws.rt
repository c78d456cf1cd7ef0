//! Laws of the host, each the contract of a function that does nothing.

ghost use Rattle.std.specs.Prelude.{◌≡◌, Some, codes};
ghost use Rattle.pt_content.specs.declared.function.Function.TheVariants.{Exit, IsOf, JoinItems};
ghost use Rattle.pt_content.specs.declared.function.Function.TheVariants.{MakeSet, MakeTuple};
ghost use Rattle.pt_content.specs.declared.function.Function.TheVariants.{Refill, SortItems};
ghost use Rattle.pt_host.specs.Sound.{ArisesSoundly, KeepsTheHeapSound, MakesSoundFailures};
ghost use Rattle.pt_host.specs.Sound.{TakesEntries};
ghost use Rattle.pt_host.specs.World.{Program};
ghost use Rattle.pt_host.specs.declared.places.TheConstants.{ATTRIBUTE_ERROR, DISABLE, GENERATOR_EXIT, MISSING, ASSERTION_ERROR, BASE_EXCEPTION};
ghost use Rattle.pt_host.specs.declared.places.TheConstants.{NAME_ERROR, RECURSION_ERROR};
ghost use Rattle.pt_host.specs.declared.places.TheConstants.{RUNTIME_ERROR, STOP_ITERATION};
ghost use Rattle.pt_host.specs.declared.places.TheConstants.{SYSTEM_EXIT, TYPE_ERROR};
ghost use Rattle.pt_host.specs.declared.places.TheConstants.{UNBOUND_LOCAL_ERROR, VALUE_ERROR};
ghost use Rattle.pt_host.specs.Laws.{functions_asked, functions_by_name, hidden_function};
ghost use Rattle.pt_host.specs.Laws.{names_in_prelude, names_with_suffix, start_function};
ghost use Rattle.pt_host.specs.Laws.{start_name};
ghost use Rattle.pt_host.specs.declared.places.TheConstants.{IMPORT_ERROR};
ghost use Rattle.pt_host.specs.declared.places.TheConstants.{MODULE_NOT_FOUND_ERROR, OBJECT, SYS};
ghost use Rattle.pt_host.specs.pt_methods.declared.attribute.TheConstants.{EXIT};

/// The objects that the host speaks of stand at their places as a run starts.
pub fn objects_stand_at_their_places()
    ensures object { start_name OBJECT ≡ codes "object" }
    ensures base { start_name BASE_EXCEPTION ≡ codes "BaseException" }
    ensures exit { start_name SYSTEM_EXIT ≡ codes "SystemExit" }
    ensures closing { start_name GENERATOR_EXIT ≡ codes "GeneratorExit" }
    ensures asserts { start_name ASSERTION_ERROR ≡ codes "AssertionError" }
    ensures attributes { start_name ATTRIBUTE_ERROR ≡ codes "AttributeError" }
    ensures imports { start_name IMPORT_ERROR ≡ codes "ImportError" }
    ensures modules { start_name MODULE_NOT_FOUND_ERROR ≡ codes "ModuleNotFoundError" }
    ensures names { start_name NAME_ERROR ≡ codes "NameError" }
    ensures locals { start_name UNBOUND_LOCAL_ERROR ≡ codes "UnboundLocalError" }
    ensures runs { start_name RUNTIME_ERROR ≡ codes "RuntimeError" }
    ensures depth { start_name RECURSION_ERROR ≡ codes "RecursionError" }
    ensures iterators { start_name STOP_ITERATION ≡ codes "StopIteration" }
    ensures types { start_name TYPE_ERROR ≡ codes "TypeError" }
    ensures values { start_name VALUE_ERROR ≡ codes "ValueError" }
    ensures disable { start_name DISABLE ≡ codes "DISABLE" }
    ensures missing { start_name MISSING ≡ codes "MISSING" }
    ensures sys { start_name SYS ≡ codes "sys" }
    ensures exits { start_name EXIT ≡ codes "exit" }
    ensures exit_function { start_function EXIT ≡ Some Exit }
{}

/// The builtins that are functions written in Python are those of the prelude by their names; and
/// what only these ask are the operations on values of these names.
pub fn written_builtins_are_of_the_prelude()
    ensures classes { functions_by_name ≡ functions_asked }
    ensures functions { names_in_prelude ≡ names_with_suffix }
    ensures tuples { hidden_function (codes "_tuple") ≡ Some MakeTuple }
    ensures sets { hidden_function (codes "_set") ≡ Some MakeSet }
    ensures kinds { hidden_function (codes "_is") ≡ Some IsOf }
    ensures joins { hidden_function (codes "_join") ≡ Some JoinItems }
    ensures sorts { hidden_function (codes "_sort") ≡ Some SortItems }
    ensures refills { hidden_function (codes "_refill") ≡ Some Refill }
{}

/// Where the heap is sound and all that is held and asked names objects of it, each answer leaves
/// that so, with no fewer objects; and so do the exceptions that a run makes by itself, those that
/// arise while another one is active, and the entries of tracebacks.
#[tactic(auto, using(crate::proofs::HeapSound::keeps_sound, crate::proofs::Within::failures_sound, crate::proofs::EntriesSound::arises_soundly, crate::proofs::EntriesSound::takes_entries))]
pub fn the_host_keeps_the_heap_sound()
    ensures answers { (program : Program) → KeepsTheHeapSound program }
    ensures failures { MakesSoundFailures }
    ensures contexts { ArisesSoundly }
    ensures entries { TakesEntries }
{}
