//! The steps of a board, each with its own answer, and any of them by its name.
ghost use Rattle.board.specs.declared.step.Step.TheVariants as step;
ghost use Rattle.board.specs.declared.step.StepFault.TheVariants as fault;
ghost use Rattle.board.specs.Moving.{Steps};
ghost use Rattle.board.specs.Steps.{answer_by, did_answer, drive_answer, publish_answer};
ghost use Rattle.std.specs.Prelude.{◌≡◌};

use crate::board::Board;
use crate::step::{Act, Seen, Step, StepFault};
use disk::Disk;
use flusher::StoreFault;
use guest_memory::MemFault;
use mmio_transport::{DeviceFault, Published};
use rpmb_book::Refused;

/// Whether a step did what it is for, as an answer of any step.
fn seen(did: bool) -> Result<Seen, StepFault>
    ensures { result ≡ did_answer did }
{
    match did {
        true => Ok(Seen::Did),
        false => Ok(Seen::Nothing),
    }
}

fn driven(answer: Result<Seen, MemFault>) -> Result<Seen, StepFault>
    ensures { result ≡ drive_answer answer }
{
    match answer {
        Ok(seen) => Ok(seen),
        Err(fault) => Err(StepFault::Memory(fault)),
    }
}

fn popped(answer: Result<bool, DeviceFault>) -> Result<Seen, StepFault>
    ensures { result ≡ answer_by fault.Device answer }
{
    match answer {
        Ok(did) => seen(did),
        Err(fault) => Err(StepFault::Device(fault)),
    }
}

fn submitted(answer: Result<bool, Refused>) -> Result<Seen, StepFault>
    ensures { result ≡ answer_by fault.Book answer }
{
    match answer {
        Ok(did) => seen(did),
        Err(refused) => Err(StepFault::Book(refused)),
    }
}

fn published(answer: Option<Published>) -> Result<Seen, StepFault>
    ensures { result ≡ publish_answer answer }
{
    match answer {
        Some(published) => Ok(Seen::Published(published)),
        None => Ok(Seen::Nothing),
    }
}

fn advanced(answer: Result<bool, StoreFault>) -> Result<Seen, StepFault>
    ensures { result ≡ answer_by fault.Store answer }
{
    match answer {
        Ok(did) => seen(did),
        Err(fault) => Err(StepFault::Store(fault)),
    }
}

impl<D: Disk> Board<D> {
    /// The guest's driver acts on its device: it reads or writes a register, or stores into its
    /// memory. `Nothing` for a guest that the board lacks; `OutOfRange` where a store doesn't lie
    /// in the memory, which stays then.
    #[inline(always)]
    pub fn drive(&mut self, guest: u16, act: &Act) -> Result<Seen, MemFault>
        ensures { Steps D.state D.makes (step.Drive guest act.now) (drive_answer result)
            self.old self.new }
    {
        self.rest.what_always_holds();
        self.rest.drive(&mut self.devices, guest, act)
    }

    /// The device gives its next chain as a job, into the guest's empty place. Whether it gave one:
    /// not where none is available, a job lies there already, or the board lacks the guest. A
    /// refusal is the device's.
    #[inline(always)]
    pub fn pop(&mut self, guest: u16) -> Result<bool, DeviceFault>
        ensures { Steps D.state D.makes (step.Pop guest) (answer_by fault.Device result)
            self.old self.new }
    {
        self.rest.what_always_holds();
        self.rest.pop(&mut self.devices, guest)
    }

    /// The book answers the guest's job, which leaves its place. Whether one lay there. A job that
    /// the book refuses stays in its place, and nothing changes.
    #[inline(always)]
    pub fn submit(&mut self, guest: u16) -> Result<bool, Refused>
        ensures { Steps D.state D.makes (step.Submit guest) (answer_by fault.Book result)
            self.old self.new }
    {
        self.rest.what_always_holds();
        self.rest.submit(guest)
    }

    /// The book gives the guest's oldest reply, where it may leave and the reply's place is empty.
    /// Whether it gave one. It takes no memory.
    #[inline(always)]
    pub fn collect(&mut self, guest: u16) -> bool
        ensures { Steps D.state D.makes (step.Collect guest) (did_answer result) self.old self.new }
    {
        self.rest.what_always_holds();
        self.rest.collect(guest)
    }

    /// The reply in the guest's place is written into its chain. What became of it; `None` where
    /// none lay there. It takes no memory.
    #[inline(always)]
    pub fn publish(&mut self, guest: u16) -> Option<Published>
        ensures { Steps D.state D.makes (step.Publish guest) (publish_answer result)
            self.old self.new }
    {
        self.rest.what_always_holds();
        self.rest.publish(&mut self.devices, guest)
    }

    /// The book gives the intent of the guest's oldest accepted request that the store lacks, into
    /// its empty place. Whether it gave one. It takes no memory.
    #[inline(always)]
    pub fn take(&mut self, guest: u16) -> bool
        ensures { Steps D.state D.makes (step.Take guest) (did_answer result) self.old self.new }
    {
        self.rest.what_always_holds();
        self.rest.take(guest)
    }

    /// The store gets the intent in the guest's place, where it has a slot free. Whether it got
    /// one. It takes no memory.
    #[inline(always)]
    pub fn give(&mut self, guest: u16) -> bool
        ensures { Steps D.state D.makes (step.Give guest) (did_answer result) self.old self.new }
    {
        self.rest.what_always_holds();
        self.rest.give(guest)
    }

    /// The store makes its next call to the disk. Whether there was one: not where the store has
    /// none, nor while the end of the last waits for the book. The fault of a call that fails, or
    /// of a store that is broken, waits for the book too. It takes no memory.
    #[inline(always)]
    pub fn advance(&mut self) -> Result<bool, StoreFault>
        ensures { Steps D.state D.makes step.Advance (answer_by fault.Store result)
            self.old self.new }
    {
        self.rest.what_always_holds();
        self.rest.advance()
    }

    /// The book learns what the store's last call settled, or that it failed. Whether anything
    /// waited for it. It takes no memory.
    #[inline(always)]
    pub fn settle(&mut self) -> bool
        ensures { Steps D.state D.makes step.Settle (did_answer result) self.old self.new }
    {
        self.rest.what_always_holds();
        self.rest.settle()
    }

    /// One step by its name, as the method of that name makes it. It is `Nothing` exactly where it
    /// would overfill its place (an Advance while a report stands, which then makes no call to the
    /// disk), finds its place empty or no slot free, names no guest of the board, or its call gives
    /// nothing; then nothing changes but what a pop that finds none writes. What a refusal leaves
    /// is its call's: a Submit that is refused keeps its job in its place. An Advance whose call
    /// fails, or that finds the store broken, leaves the fault as its report, and answers it too.
    ///
    /// A step makes at most one call to the disk, and only an Advance makes one. All steps but a
    /// Pop and a Submit take no memory.
    // Inlined, a step that its caller names is the call that it stands for, looked up nowhere.
    #[inline(always)]
    pub fn step(&mut self, step: &Step) -> Result<Seen, StepFault>
        ensures { Steps D.state D.makes step.now result self.old self.new }
    {
        match step {
            Step::Drive(guest, act) => driven(self.drive(*guest, act)),
            Step::Pop(guest) => popped(self.pop(*guest)),
            Step::Submit(guest) => submitted(self.submit(*guest)),
            Step::Collect(guest) => seen(self.collect(*guest)),
            Step::Publish(guest) => published(self.publish(*guest)),
            Step::Take(guest) => seen(self.take(*guest)),
            Step::Give(guest) => seen(self.give(*guest)),
            Step::Advance => advanced(self.advance()),
            Step::Settle => seen(self.settle()),
        }
    }
}
