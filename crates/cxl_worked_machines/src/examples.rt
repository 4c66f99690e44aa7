//! What the definitions say of worked machines, each the contract of a function that does nothing.

ghost use Rattle.std.specs.Prelude.{[], ◌∷◌, codes};
ghost use Rattle.cxl_script.specs.declared.command.Command.TheVariants as commands;
ghost use Rattle.cxl_model.specs.Contents.{Contents};
ghost use Rattle.cxl_model.specs.declared.plan.PlanFault.TheVariants as faults;
ghost use Rattle.cxl_reply.specs.declared.reply.Reply.TheVariants as replies;
ghost use Rattle.cxl_machine.specs.Answers.{Answers};
ghost use Rattle.cxl_machine.specs.Outcomes.{NoFault, Undone, LeftPending};
ghost use Rattle.cxl_machine.specs.Replies.{becomes, stays};
ghost use Rattle.cxl_worked_machines.specs.Examples.{fresh, create_named, with_r0, with_both, with_locked, making_r0, making_b, releasing, without_r0, named_at, r0, b, e1, hb0, many_regions, nothing, load, create_of, create_picked};

/// A law of regions: a create makes one, or is undone, or is left pending.
pub fn creates_on_examples()
    ensures made { Answers fresh (commands.Create (create_named r0)) NoFault
        (becomes (with_r0 nothing) (replies.Created (named_at r0 0x100000000))) }
    ensures next { Answers (with_r0 nothing) (commands.Create (create_named b)) NoFault
        (becomes (with_both 2 nothing nothing) (replies.Created (named_at b 0x120000000))) }
    ensures picked { Answers fresh (create_picked 0x20000000 2) NoFault
        (becomes (with_r0 nothing) (replies.Created (named_at r0 0x100000000))) }
    ensures undone { Answers fresh (commands.Create (create_named r0)) Undone (stays fresh replies.BusUndone) }
    ensures pending { Answers fresh (commands.Create (create_named r0)) (LeftPending 2)
        (becomes (making_r0 2) (replies.BusPending record { name = r0; done = 2; total = 32 })) }
{}

/// A law of regions: a create that is refused, by the first cause in its order.
pub fn refused_creates_on_examples()
    ensures busy { Answers (making_b 3) (commands.Create (create_named r0)) NoFault
        (stays (making_b 3) (replies.Busy b)) }
    ensures name_taken { Answers (with_r0 nothing) (commands.Create (create_named r0)) NoFault
        (stays (with_r0 nothing) (replies.NameTaken r0)) }
    ensures no_endpoint { Answers fresh (commands.Create record (create_named r0) { endpoints = e1 ∷ hb0 ∷ codes "e9" ∷ [] }) NoFault
        (stays fresh (replies.NoEndpoint hb0)) }
    ensures full { Answers many_regions (commands.Create (create_named b)) NoFault
        (stays many_regions replies.RegionsFull) }
    ensures plan_fault { Answers fresh (create_of 0x10000000) NoFault
        (stays fresh (replies.Refused faults.Size)) }
    ensures pick_ways { Answers fresh (create_picked 0x20000000 5) NoFault
        (stays fresh (replies.Refused (faults.Ways 5))) }
    ensures pick_size { Answers fresh (create_picked 0x10000000 2) NoFault
        (stays fresh (replies.Refused faults.Size)) }
    ensures no_set { Answers fresh (create_picked 0x20000000 1) NoFault
        (stays fresh replies.NoSet) }
{}

/// A law of regions: a destroy ends one, or is undone, or is left pending; and each cause for which it is refused.
pub fn releases_on_examples()
    ensures destroyed { Answers (with_r0 nothing) (commands.Destroy r0) NoFault
        (becomes without_r0 (replies.Destroyed r0)) }
    ensures undone { Answers (with_r0 nothing) (commands.Destroy r0) Undone (stays (with_r0 nothing) replies.BusUndone) }
    ensures pending { Answers (with_r0 nothing) (commands.Destroy r0) (LeftPending 3)
        (becomes (releasing nothing 3) (replies.BusPending record { name = r0; done = 3; total = 4 })) }
    ensures busy { Answers (making_b 19) (commands.Destroy r0) NoFault
        (stays (making_b 19) (replies.Busy b)) }
    ensures no_region { Answers fresh (commands.Destroy r0) NoFault (stays fresh (replies.NoRegion r0)) }
    ensures locked { Answers with_locked (commands.Destroy r0) NoFault
        (stays with_locked (replies.Locked record { node = 0; decoder = 0 })) }
    ensures not_last { Answers (with_both 2 nothing nothing) (commands.Destroy r0) NoFault
        (stays (with_both 2 nothing nothing) (replies.NotLast record { node = 0; decoder = 0 })) }
{}

/// A law of jobs: a region is made write by write.
pub fn steps_on_examples()
    ensures begun { Answers (with_r0 nothing) (commands.BeginCreate (create_named b)) NoFault
        (becomes (making_b 0) (replies.Begun record { name = b; writes = 32 })) }
    ensures refused { Answers (making_b 0) (commands.BeginCreate (create_named r0)) NoFault
        (stays (making_b 0) (replies.Busy b)) }
    ensures stepped { Answers (making_b 0) (commands.Step 24) NoFault
        (becomes (making_b 24) (replies.Stepped record { done = 24; total = 32 })) }
    ensures pending { Answers (making_b 0) (commands.Step 5) (LeftPending 1)
        (becomes (making_b 1) (replies.BusPending record { name = b; done = 1; total = 32 })) }
    ensures made { Answers (making_b 24) (commands.Step 100) NoFault
        (becomes (with_both 2 nothing nothing) (replies.Created (named_at b 0x120000000))) }
    ensures aborted { Answers (making_b 24) commands.Abort NoFault
        (becomes (with_r0 nothing) (replies.Aborted b)) }
    ensures abort_pending { Answers (making_b 24) commands.Abort (LeftPending 7)
        (becomes (making_b 7) (replies.BusPending record { name = b; done = 7; total = 32 })) }
    ensures no_step { Answers fresh (commands.Step 1) NoFault (stays fresh replies.NothingPending) }
    ensures no_abort { Answers fresh commands.Abort NoFault (stays fresh replies.NothingPending) }
    ensures unmapped { Answers (making_b 24) (load 0x120000100 1) NoFault
        (stays (making_b 24) replies.Unmapped) }
{}

/// A law of jobs: a region is ended write by write, and keeps its bytes till the last.
pub fn release_steps_on_examples()
    ensures begun { (contents : Contents) → Answers (with_r0 contents) (commands.BeginDestroy r0) NoFault
        (becomes (releasing contents 0) (replies.Begun record { name = r0; writes = 4 })) }
    ensures refused { (contents : Contents) → Answers (releasing contents 0) (commands.BeginDestroy r0) NoFault
        (stays (releasing contents 0) (replies.Busy r0)) }
    ensures unmapped { (contents : Contents) → Answers (releasing contents 0) (load 0x100000000 1) NoFault
        (stays (releasing contents 0) replies.Unmapped) }
    ensures not_shown { (contents : Contents) → Answers (releasing contents 0) (commands.Show r0) NoFault
        (stays (releasing contents 0) (replies.NoRegion r0)) }
    ensures stepped { (contents : Contents) → Answers (releasing contents 0) (commands.Step 1) NoFault
        (becomes (releasing contents 1) (replies.Stepped record { done = 1; total = 4 })) }
    ensures aborted { (contents : Contents) → Answers (releasing contents 1) commands.Abort NoFault
        (becomes (with_r0 contents) (replies.Aborted r0)) }
    ensures ended { (contents : Contents) → Answers (releasing contents 1) (commands.Step 9) NoFault
        (becomes without_r0 (replies.Destroyed r0)) }
{}
