//! Theorems about the definitions, each the contract of a function that does nothing.
ghost use Rattle.ringpop_c.specs.Exports.{ExportRunsAreRuns, ExportRunsKeepIt, ExportsAreCalls};
ghost use Rattle.ringpop_c.specs.Views.{ViewsNameOwners};

/// An export, a lookup too, makes one call of the node in its handle, or leaves it unchanged.
pub fn export_call()
    ensures { ExportsAreCalls }
{}

/// So what exports do, one after another, is a run of calls of the node, and keeps what holds of one, its address, its hash and
/// its configuration.
pub fn export_run()
    ensures runs { ExportRunsAreRuns }
    ensures keeps { ExportRunsKeepIt }
{}

/// A view names owners as its node did when it was made.
pub fn view_owners()
    ensures { ViewsNameOwners }
{}
