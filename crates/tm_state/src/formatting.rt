//! The text of emitted values.
ghost use Rattle.std.specs.Prelude.{◌≡◌};
ghost use Rattle.tm_meaning.specs.World.{emitted};
ghost use Rattle.tm_state.specs.Answers.{IsEmitted};

use crate::state::StateData;
use std::alloc::Global;
use tm_printing::emission_text;
use tm_tables::{Host, Parties};
use tm_values::{Error, UndefinedUse, Value, check_defined};

impl StateData {
    /// The text of an emitted value. UndefinedError if it is undefined and may not be emitted; then
    /// the formatter's fault, if there is a formatter, or else the error of the escape;
    /// OutOfMemory.
    pub fn format<H: Host>(&self, alloc: Global, host: &H, value: &Value) -> Result<String, Error>
        ensures { IsEmitted result (emitted (H.program host.now).host value.now self.now) self.now }
    {
        check_defined(value, host.undefined_behavior(), UndefinedUse::Emission)?;
        let view = self.view(host);
        match host.objects().format(alloc, value, &view) {
            Some(answer) => answer,
            None => emission_text(alloc, value, self.escape(), self),
        }
    }
}
