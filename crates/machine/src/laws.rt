//! A law of a serve, above its definitions: it comes to an end. The function does nothing: what it
//! ensures holds of the relation that `Machine::serve` meets.
ghost use Rattle.machine.specs.Remaining.{ComesToAnEnd};

/// What serves of a guest do is bounded: by what remained to be done of it, and 15 things for each
/// chain that was taken of it. A call that says `Again` has done 16, unless a write waits for room,
/// or the device was stopped: so once what remained is done, such calls are fewer than the chains.
pub fn serve_comes_to_an_end()
    ensures { ComesToAnEnd }
{}
