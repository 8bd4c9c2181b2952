//! Laws over the exported line. No function here does anything.

ghost use Rattle.in_export.specs.Exporting.{TextsAreExportedOnce};
ghost use Rattle.in_export.specs.Queues.{ActiveWiresAreTheQueue};

/// The line is a function of the text and its limits: two results for one text are one line, or one refusal. The law doesn't cover running out of memory.
pub fn texts_are_exported_once()
    ensures { TextsAreExportedOnce }
{}

/// The active wires of a net, in their order, join the active pairs of the queue with which its reduction begins. The active wires of a right
/// member join the pairs that it brings itself.
pub fn active_wires_are_the_queue()
    ensures { ActiveWiresAreTheQueue }
{}
