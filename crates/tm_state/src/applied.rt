//! Applications of methods, filters and tests to values.
ghost use Rattle.std.specs.Prelude.{◌≡◌};
ghost use Rattle.tm_meaning.specs.Calls.{applied, apply_filter, call_first, perform_test};
ghost use Rattle.tm_state.specs.Answers.{Becomes, FoundAnswers, LeavesState};
ghost use Rattle.tm_syntax.specs.Named.{find};
ghost use Rattle.tm_values.specs.declared.error.ErrorKind.TheVariants.{UnknownFilter, UnknownTest};

use crate::state::StateData;
use std::alloc::Global;
use tm_records::CallResult;
use tm_syntax::Application;
use tm_tables::{CallableAnswer, Host, Parties};
use tm_values::{Error, ErrorKind, Value};

impl StateData {
    /// Applies to `args` the first value's method, the filter or the test named `name`; a test's
    /// answer becomes a boolean. InvalidOperation for a method without a receiver, and the error of
    /// the call. `place` is a hint for finding the filter or test.
    #[inline(always)]
    pub fn apply<H: Host>(
        &mut self,
        alloc: Global,
        host: &H,
        application: Application,
        name: &str,
        place: usize,
        args: &[Value],
    ) -> Result<CallResult, Error>
        ensures called { Becomes result
            (applied (H.program host.now).host application name.now args.now self.old) self.new }
        ensures leaves { LeavesState (H.program host.now).host.limit result self.old self.new }
    {
        match application {
            Application::Method => self.call_first(alloc, host, name, args),
            Application::Filter => self.apply_filter(alloc, host, name, place, args),
            Application::Test | Application::NegatedTest => {
                self.perform_test(alloc, host, name, place, args)
            }
        }
    }

    /// Calls the method `name` of the first value with the other values.
    fn call_first<H: Host>(
        &mut self,
        alloc: Global,
        host: &H,
        name: &str,
        args: &[Value],
    ) -> Result<CallResult, Error>
        ensures called { Becomes result
            (call_first (H.program host.now).host name.now args.now self.old) self.new }
        ensures leaves { LeavesState (H.program host.now).host.limit result self.old self.new }
    {
        match args.split_first() {
            Some((receiver, others)) => self.call_method(alloc, host, receiver, name, others),
            None => Err(Error::from(ErrorKind::InvalidOperation)),
        }
    }

    /// Calls the filter `name` with `args`. The values that it keeps are kept even if it answers a
    /// fault. UnknownFilter if there is no such filter, InvalidOperation for a further call beyond
    /// the recursion limit, and the fault of the call.
    #[inline(always)]
    #[tactic(auto, using(crate::proofs::Answered::followed))]
    pub fn apply_filter<H: Host>(
        &mut self,
        alloc: Global,
        host: &H,
        name: &str,
        place: usize,
        args: &[Value],
    ) -> Result<CallResult, Error>
        ensures called { Becomes result
            (apply_filter (H.program host.now).host name.now args.now self.old) self.new }
        ensures leaves { LeavesState (H.program host.now).host.limit result self.old self.new }
    {
        let answer = self.filter_answer(alloc, host, name, place, args)?;
        self.follow(alloc, host, answer, false)
    }

    /// Calls the test `name` with `args` and returns whether its answer is true, whatever the
    /// undefined behavior is. The values that it keeps are kept even if it answers a fault.
    /// UnknownTest if there is no such test, InvalidOperation for a further call beyond the
    /// recursion limit, and the fault of the call.
    #[tactic(auto, using(crate::proofs::Answered::followed))]
    pub fn perform_test<H: Host>(
        &mut self,
        alloc: Global,
        host: &H,
        name: &str,
        place: usize,
        args: &[Value],
    ) -> Result<CallResult, Error>
        ensures called { Becomes result
            (perform_test (H.program host.now).host name.now args.now self.old) self.new }
        ensures leaves { LeavesState (H.program host.now).host.limit result self.old self.new }
    {
        let answer = self.test_answer(alloc, host, name, place, args)?;
        self.follow(alloc, host, answer, true)
    }

    /// The answer of the filter `name`.
    #[inline(always)]
    #[tactic(auto, using(crate::proofs::Answered::named))]
    pub(crate) fn filter_answer<H: Host>(
        &self,
        alloc: Global,
        host: &H,
        name: &str,
        place: usize,
        args: &[Value],
    ) -> Result<CallableAnswer, Error>
        ensures { FoundAnswers result (H.program host.now).host
            (find name.now (H.program host.now).host.filters) UnknownFilter args.now self.now }
    {
        let view = self.view(host);
        match host.objects().apply_filter(alloc, name, place, args, &view) {
            Some(answer) => Ok(answer),
            None => Err(Error::from(ErrorKind::UnknownFilter)),
        }
    }

    /// The answer of the test `name`.
    #[tactic(auto, using(crate::proofs::Answered::named))]
    fn test_answer<H: Host>(
        &self,
        alloc: Global,
        host: &H,
        name: &str,
        place: usize,
        args: &[Value],
    ) -> Result<CallableAnswer, Error>
        ensures { FoundAnswers result (H.program host.now).host
            (find name.now (H.program host.now).host.tests) UnknownTest args.now self.now }
    {
        let view = self.view(host);
        match host.objects().perform_test(alloc, name, place, args, &view) {
            Some(answer) => Ok(answer),
            None => Err(Error::from(ErrorKind::UnknownTest)),
        }
    }
}
