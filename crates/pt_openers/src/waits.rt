use pt_heap::Value;

/// An activation that waits for the next newer one.
pub trait Waits {
    ghost use Rattle.std.specs.Prelude.{◌≡◌, Bool, Option};
    ghost use Rattle.pt_heap.specs.declared.value.Value as values;

    /// The exception that is active in it.
    ghost exception: { Self → Option values.Value };

    /// Whether the newer one runs for a hook.
    ghost is_for_hook: { Self → Bool };

    /// The exception that is active in it (Language Reference 7.8, 8.4).
    fn active(&self) -> Option<Value>
        ensures { result ≡ exception self.now };

    /// Whether the newer one runs for a hook, so that nothing is told there (Library Reference,
    /// `sys.settrace`, `sys.monitoring`).
    fn waits_for_hook(&self) -> bool
        ensures { result ≡ is_for_hook self.now };
}
