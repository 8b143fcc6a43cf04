// Event flags services.
//
// Create, delete and prioritise stand in each kind's file: tried as one function for all kinds, which takes the tables by value and copies them again.
ghost use Rattle.std.specs.Prelude.{◌≡◌};
ghost use Rattle.objects.specs.Groups.{group_with};
ghost use Rattle.calls.specs.Held.{no_words};
ghost use Rattle.calls.specs.Statuses.{success};
ghost use Rattle.calls.specs.Chains.{group_create_refusal, group_delete_refusal, set_refusal, get_refusal};
ghost use Rattle.kernel.specs.Tables.{group_at};
ghost use Rattle.kernel.specs.Answers.{answer_of};
ghost use Rattle.kernel.specs.Loops.{answered};
ghost use Rattle.kernel.specs.Kinds.{Kind};
ghost use Rattle.kernel.specs.Edits.{carried_out, guarded};
ghost use Rattle.kernel.specs.Effects.{store_effect, remove_effect};
ghost use Rattle.kernel.specs.Groups.{set_or_effect, set_effect, flags_get_effect};

use super::{Answer, Kernel, NO_WORDS, two_words};
use calls::call::option_of;
use calls::held::Held;
use calls::refusal;
use calls::status::{DELETED, SUCCESS, WAITING};
use lines::slots::{record_in, store};
use matching::woken;
use numbers::{GroupId, THREADS, ThreadId};
use objects::group::{Group, cleared_by, is_met, less};
use scheduler::thread::Place;

impl Kernel {
    pub(crate) fn event_flags_create(mut self, caller: u32, n: GroupId) -> Answer
        ensures { result ≡ answer_of (guarded self (group_create_refusal n.0 (group_at self n.0) caller) (store_effect Kind.group n.0 (group_with 0))) }
    {
        let g = record_in(&self.groups, n.0, Group::none());
        if let Err(reason) = refusal::group_create(n, g, caller) {
            return self.refused(u32::from(reason));
        }
        store(&mut self.groups, n.0, Group::of(0));
        self.carried(self.scheduler, SUCCESS, NO_WORDS, 0)
    }

    pub(crate) fn event_flags_delete(mut self, caller: u32, n: GroupId) -> Answer
        ensures { result ≡ answer_of (guarded self (group_delete_refusal (group_at self n.0) caller) (remove_effect self Kind.group n.0)) }
    {
        let g = record_in(&self.groups, n.0, Group::none());
        if let Err(reason) = refusal::group_delete(g, caller) {
            return self.refused(u32::from(reason));
        }
        let line = self.scheduler.line_at(Place::group(n));
        store(&mut self.groups, n.0, Group::none());
        self.ended_each(line, DELETED, NO_WORDS)
    }

    // Whoever waits for flags that are now set is woken with them; clears are taken off afterwards. So many waits have ended. Where the
    // tables lie, since `ended_each` would copy them twice more, and flags are set often.
    fn set_or(&mut self, n: GroupId, flags: u32) -> u32
        ensures { answered self.new self.new.scheduler success no_words result ≡ answer_of (carried_out self.old (set_or_effect self.old n.0 flags)) }
    {
        // Two tables of numbers: the clauses of `woken` speak of requests and options apart.
        // Filled by a loop: with `array::from_fn` the proof did not close, since its calls do not tell what an indexed field of `self` gave.
        let mut requests: [u32; THREADS] = [0; THREADS];
        let mut options: [u8; THREADS] = [0; THREADS];
        for (t, h) in self.held.iter().enumerate() {
            requests[t] = h.request;
            options[t] = h.option;
        }
        let mut s = self.scheduler;
        let met = woken(s.line_at(Place::group(n)), flags, requests, options);
        store(&mut self.groups, n.0, Group::of(less(flags, met.clears)));
        let h = Held::of(SUCCESS, two_words(flags, 0));
        for x in met.line.as_slice() {
            s = s.woken(ThreadId(*x));
            store(&mut self.held, *x, h);
        }
        self.scheduler = s;
        u32::from(met.line.size())
    }

    pub(crate) fn event_flags_set(mut self, n: GroupId, flags: u32, option: u32) -> Answer
        ensures { result ≡ answer_of (guarded self (set_refusal (group_at self n.0) option) (set_effect self n.0 flags option)) }
    {
        let g = record_in(&self.groups, n.0, Group::none());
        if let Err(reason) = refusal::flags_set(g, option) {
            return self.refused(u32::from(reason));
        }
        let ended = if option == 0 {
            self.set_or(n, g.flags | flags)
        } else {
            store(&mut self.groups, n.0, Group::of(g.flags & flags));
            0
        };
        self.carried(self.scheduler, SUCCESS, NO_WORDS, ended)
    }

    pub(crate) fn event_flags_get(
        mut self,
        caller: u32,
        n: GroupId,
        request: u32,
        option: u32,
        wait: u32,
    ) -> Answer
        ensures { result ≡ answer_of (guarded self (get_refusal (group_at self n.0) request option wait caller) (flags_get_effect self n.0 request option wait)) }
    {
        let g = record_in(&self.groups, n.0, Group::none());
        if let Err(reason) = refusal::flags_get(g, request, option, wait, caller) {
            return self.refused(u32::from(reason));
        }
        let o = option_of(option);
        let (status, words) = if is_met(g.flags, request, o) {
            store(
                &mut self.groups,
                n.0,
                Group::of(less(g.flags, cleared_by(request, o))),
            );
            (SUCCESS, two_words(g.flags, 0))
        } else {
            self.begin_wait(false, Place::group(n), wait, Held::requester(request, o));
            (WAITING, NO_WORDS)
        };
        self.carried(self.scheduler, status, words, 0)
    }
}
