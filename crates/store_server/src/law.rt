// What the store answers to what a session gives it.
ghost use Rattle.store_server.specs.Laws.{AnswersCommands};

/// Each outcome of a frame that is sent to the store is an answer, whose fields have their forms and ranges.
pub fn store_serve_law()
    ensures { AnswersCommands }
{}
