// A change, with its body in memory of its own, or as a script has it.

// What becomes of a number, where a body is kept as `B`.
// No `Option<B>`: a number without a change is `None` already, as the map answers it, and a removal would be a `Some(None)` beside it.
#[derive(Clone, Copy, Drop)]
pub enum Change<B> {
    Removed,
    Body(B),
}
