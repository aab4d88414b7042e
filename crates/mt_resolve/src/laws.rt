//! A law of the definitions: what `resolve` asks holds of each commit that is allowed.
ghost use Rattle.mt_types.specs.declared.body.Body.{Body};
ghost use Rattle.mt_resolve.specs.Laws.{CommitsAreReady};

/// In a lawful state, where the commit of a task is not refused and its fate is well made, `resolve` can be called.
pub fn commits_are_ready()
    ensures { CommitsAreReady Body }
{}
