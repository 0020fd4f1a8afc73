//! What a running machine holds: it runs from request to request.
ghost use Rattle.std.specs.Prelude.{◌≡◌, ◌≢◌, ◌+◌, ◌-◌, ◌<◌, ◌≤◌, ◌++◌, ◌∷◌, [], List, length, slice_get, replicate, IsTrue, IfSome, ◌^◌, true, false, Option, Some, None, Ok};
ghost use Rattle.s7_base.specs.Blocks.{Program};
ghost use Rattle.std.specs.Option.{option_map};
ghost use Rattle.s7_events.specs.declared.entry.Answer.{Answer};
ghost use Rattle.statement_effects.specs.Areas.{start_memory};
ghost use Rattle.statement_effects.specs.Levels.{priority_in};
ghost use Rattle.level_stack.specs.Levels.{running_locals};
ghost use Rattle.mc_machine.specs.Meaning.{error_registers, failed, fails, begun, calls, turn_of, flows, jump_among, cycle_length, cycles_after, answered, takes, stops_cpu, begins_main, lost_note, again_mode, again, resumed, timed_at, retriggered_at, Waits, std, request_of, stop_request};
ghost use Rattle.mc_machine.specs.Stands.{state_of, with_newest, start_config, StandsFor, IsMoved, IsTurned, halts_with, Reacts, Follows, register_head, register_bytes, IsHigh, AreStacked, AreBegun, IsSound, IsValid, IsAskedAt, AsksAt, Keeps, IsTaken, IsDated, IsAsked, GoesOn, MayInterrupt};
ghost use Rattle.mc_machine.specs.Places.{AtInputs, AtStop, Over, At, Fresh};
ghost use Rattle.mc_machine.specs.EngineView.{level_in, mode_of, place_of, config_of, running_of, decoded_codes, gone_to, IsCode, IsIndexed, IsStored};
ghost use Rattle.s7_events.specs.declared.entry.Ask.{Ask};

mod access;
mod alarms;
mod calls;
mod jobs;
mod starts;

use crate::codes::{decoded_at, end_of, instruction_in};
use crate::index::CodeIndex;
use crate::levels::{enter_error_ob, enter_main, error_ob, error_registers};
use crate::places::{BlockSpot, Cause, Frame, Level, Mode, Returns, Spot};
use arrayvec::ArrayVec;
use diag_buffer::Diag;
use s7_base::{Answer, Ask, Blocks, DiagCode, Loss, Request, Side, StopCode};
use statement_effects::{Access, DecodedBlock, Flow, Instruction, Memory, Registers};

/// How many frames there are at most: one for each of the 24 blocks of 21 levels.
const FRAMES: usize = 504;

/// The place of a machine, what its statements see, and the frames under it.
#[derive(Debug, Drop)]
pub struct Engine {
    program: Blocks,
    /// The code blocks of the program, decoded.
    decoded: Vec<DecodedBlock>,
    /// Where each of them stands.
    index: CodeIndex,
    memory: Memory,
    since: u16,
    at: u64,
    /// The moment at which the last cycle began.
    began_at: u64,
    /// How long the cycle before took, in milliseconds.
    last_length: u16,
    /// Whether the first cycle is over.
    first_over: bool,
    spot: Spot,
    frames: ArrayVec<Frame, FRAMES>,
    diag: Diag,
    waits: Option<Request>,
}

/// The priority of a request to stop.
const STOP_PRIORITY: u8 = 30;

/// The jump of a number of those that follow a place, or past the last of them the target.
fn jump_among(at: usize, number: u8, target: u32) -> usize
    requires { at + 1 < 2 ^ 64 }
    ensures { result ≡ jump_among at number target }
{
    let chosen = (at + 1).saturating_add(number as usize);
    chosen.min(target as usize)
}

/// The byte of a list at a place, if there is one.
fn byte_of(bytes: &[u8], at: usize) -> Option<u8>
    ensures { result ≡ slice_get bytes.now at }
{
    bytes.get(at).copied()
}

/// A byte of those of the registers that are always 0.
fn zero_at(at: usize) -> Option<u8>
    ensures { result ≡ slice_get (replicate 232 0) at }
{
    byte_of(&[0; 232], at)
}

/// From the moment of one beginning of a cycle to that of the next.
fn cycle_length(from: u64, to: u64) -> u16
    ensures { result ≡ cycle_length from to }
{
    let length = to.saturating_sub(from);
    if length < 32767 { length as u16 } else { 32767 }
}

fn lost_code(side: Side, why: Loss) -> DiagCode
    ensures { result ≡ lost_note side why }
{
    match why {
        Loss::Failed => DiagCode::LostFailed(side),
        Loss::Suspect => DiagCode::LostSuspect(side),
    }
}

fn request(ask: Ask, prio: u8) -> Request
    ensures { result ≡ request_of ask prio }
{
    Request { prio, ask }
}

fn stop_request(code: StopCode) -> Request
    ensures { result ≡ stop_request code }
{
    request(Ask::Stop(code), STOP_PRIORITY)
}

/// Another statement of a block, to which it comes anew.
fn at_statement(spot: BlockSpot, at: usize) -> Spot
    ensures place { place_of result ≡ At spot.block at (level_in spot.level) Fresh }
    ensures indexed { (program : Program) → IsCode program spot.code spot.block → IsIndexed program result }
{
    Spot::At(BlockSpot {
        at,
        mode: Mode::Fresh,
        ..spot
    })
}

/// How a block makes a request again.
fn again_mode(ask: &Ask, mode: Mode) -> Mode
    ensures { mode_of result ≡ again_mode ask.now (mode_of mode) }
{
    match ask {
        Ask::Tick => Mode::Ticking,
        Ask::Now => Mode::Timing,
        Ask::Retrigger => Mode::Retriggering,
        Ask::ReadP { addr, width } => Mode::Reading(Access::of(*addr, *width)),
        Ask::WriteP { addr, width, .. } => Mode::Writing(Access::of(*addr, *width)),
        _ => mode,
    }
}

impl Engine {
    /// The CPU at its start, with a buffer for its diagnostic entries: in OB100 where it is loaded, and else at its first cycle.
    #[tactic(auto, using(crate::proofs::Keeps::stands_start))]
    pub fn start(program: Blocks, decoded: Vec<DecodedBlock>, memory: Memory, diag: Diag) -> Engine
        requires decoded { decoded.items ≡ decoded_codes program.codes }
        requires memory { memory ≡ start_memory program }
        requires empty { diag ≡ [] }
        ensures valid { IsValid (running_of result) }
        ensures stored { IsStored result }
        ensures going { (config_of result).place ≢ Over }
        ensures stands { StandsFor program [] (config_of result) }
    {
        let mut engine = Engine::before_start(program, decoded, memory, diag);
        engine.start_up();
        engine
    }

    /// The CPU before it starts.
    fn before_start(
        program: Blocks,
        decoded: Vec<DecodedBlock>,
        memory: Memory,
        mut diag: Diag,
    ) -> Engine
        requires decoded { decoded.items ≡ decoded_codes program.codes }
        requires memory { memory ≡ start_memory program }
        requires empty { diag ≡ [] }
        ensures config { config_of result ≡ start_config program }
        ensures stored { IsStored result }
        ensures waits { result.waits ≡ None }
    {
        diag.note(0, DiagCode::Start);
        let index = CodeIndex::of(program.codes());
        Engine {
            program,
            decoded,
            index,
            memory,
            since: 0,
            at: 0,
            began_at: 0,
            last_length: 0,
            first_over: false,
            spot: Spot::AtOutputs,
            frames: ArrayVec::new(),
            diag,
            waits: None,
        }
    }

    /// Whether the CPU has stopped.
    pub fn is_over(&self) -> bool
        ensures over { IsTrue result → (config_of self.now).place ≡ Over }
        ensures going { result ≡ false → (config_of self.now).place ≢ Over }
    {
        matches!(self.spot, Spot::Over)
    }

    pub fn memory(&self) -> &Memory
        ensures { result.now ≡ (config_of self.now).memory }
    {
        &self.memory
    }

    /// The diagnostic entry k of those kept, the oldest first. None exactly where k is not below their number.
    pub fn note_at(&self, k: u32) -> Option<(u64, DiagCode)>
        ensures { result ≡ option_map (λ note. (note.moment, note.code)) (slice_get (config_of self.now).diag k) }
    {
        self.diag.get(k)
    }

    /// How many diagnostic entries are kept.
    pub fn note_count(&self) -> u32
        ensures { result ≡ length (config_of self.now).diag }
    {
        self.diag.len()
    }

    /// The bytes of the registers, but for those that are always 0.
    fn register_head(&self) -> [u8; 24]
        ensures { result ≡ register_head (config_of self.now) }
    {
        let [a7, a6, a5, a4, a3, a2, a1, a0] = self.at.to_be_bytes();
        let [s3, s2, s1, s0] = u32::from(self.since).to_be_bytes();
        let [b7, b6, b5, b4, b3, b2, b1, b0] = self.began_at.to_be_bytes();
        let [l1, l0] = self.last_length.to_be_bytes();
        let over = if self.first_over { 1 } else { 0 };
        let notes = self.diag.len() as u8;
        [
            a7, a6, a5, a4, a3, a2, a1, a0, s3, s2, s1, s0, b7, b6, b5, b4, b3, b2, b1, b0, l1, l0,
            over, notes,
        ]
    }

    /// The byte of the registers at a place; there are 256.
    #[tactic(auto, using(crate::proofs::AreaBytes::front_byte))]
    pub fn register_byte(&self, at: usize) -> Option<u8>
        ensures { result ≡ slice_get (register_bytes (config_of self.now)) at }
    {
        let head = self.register_head();
        if at < 24 {
            return head.get(at).copied();
        }
        zero_at(at - 24)
    }

    /// Runs to the next request. Asked again, it answers the same.
    pub fn ask(&mut self) -> Request
        requires valid { IsValid (running_of self.old) }
        requires stored { IsStored self.old }
        requires going { (config_of self.old).place ≢ Over }
        ensures valid { IsValid (running_of self.new) }
        ensures stored { IsStored self.new }
        ensures waits { (running_of self.new).waits ≡ Some result }
        ensures same { IfSome (running_of self.old).waits (λ request. (result ≡ request) × (self.new ≡ self.old)) }
        ensures going { (config_of self.new).place ≢ Over }
        ensures asked { IsAsked result.ask }
        ensures keeps { Keeps (config_of self.old) (config_of self.new) }
        // it asks what the CPU asks
        ensures next { (program : Program) (given : List Answer) → (stands : StandsFor program given (config_of self.new))
            → std program given ≡ Waits result (state_of (config_of self.new) stands.notes (length given)) }
    {
        if let Some(request) = self.waits {
            return request;
        }
        let request = self.run_on();
        self.waits = Some(request);
        request
    }

    /// Turns up to the next request.
    fn run_on(&mut self) -> Request
        requires sound { IsSound (config_of self.old) }
        requires stored { IsStored self.old }
        requires ready { self.old.waits ≡ None }
        ensures sound { IsSound (config_of self.new) }
        ensures stored { IsStored self.new }
        ensures asks { AsksAt (config_of self.new) result }
        ensures keeps { Keeps (config_of self.old) (config_of self.new) }
    {
        'turns: loop {
            self.step();
            if let Some(request) = self.waits {
                return request;
            }
        }
    }

    /// Takes the answer to the request at which it waits.
    pub fn take(&mut self, answer: &Answer, moment: u64)
        requires valid { IsValid (running_of self.old) }
        requires stored { IsStored self.old }
        requires fits { IsTaken (running_of self.old).waits answer.now }
        ensures valid { IsValid (running_of self.new) }
        ensures stored { IsStored self.new }
        ensures going { GoesOn (running_of self.old).waits answer.now → (config_of self.new).place ≢ Over }
        // it stands for the CPU after this answer too
        ensures stands { (program : Program) (given : List Answer) → moment ≡ length given → IsDated moment answer.now
            → StandsFor program given (config_of self.old) → StandsFor program (given ++ answer.now ∷ []) (config_of self.new) }
    {
        let Some(request) = self.waits.take() else {
            unreachable!()
        };
        self.since = 0;
        self.at = moment;
        self.count_cycle(&request.ask, answer, moment);
        self.react(request, answer);
    }

    /// A cycle begins when its output image has been put out, and ends with Go.
    fn count_cycle(&mut self, ask: &Ask, answer: &Answer, moment: u64)
        ensures stored { IsStored self.old → IsStored self.new }
        ensures counted { config_of self.new ≡ record (config_of self.old) { cycles = cycles_after (config_of self.old).cycles moment ask.now answer.now } }
        ensures waits { self.new.waits ≡ self.old.waits }
    {
        match (ask, answer) {
            (Ask::Outputs(_), Answer::Done) => {
                self.last_length = if self.first_over {
                    cycle_length(self.began_at, moment)
                } else {
                    0
                };
                self.began_at = moment;
            }
            (Ask::Cycle, Answer::Go) => self.first_over = true,
            _ => {}
        }
    }

    /// What the answer to a request does.
    fn react(&mut self, request: Request, answer: &Answer)
        requires sound { IsSound (config_of self.old) }
        requires stored { IsStored self.old }
        requires asked { IsAskedAt (config_of self.old).place request.ask }
        requires fits { IsTrue (takes request answer.now) }
        requires above { MayInterrupt self.old.memory answer.now }
        requires fresh { self.old.since ≡ 0 }
        ensures reacts { Reacts (answered self.old.program self.old.memory (config_of self.old).place request.ask answer.now) (config_of self.old) self.old.at (config_of self.new) }
        ensures sound { (config_of self.new).place ≢ Over → IsSound (config_of self.new) }
        ensures stored { IsStored self.new }
        ensures going { stops_cpu request.ask answer.now ≡ false → (config_of self.new).place ≢ Over }
        ensures waits { self.new.waits ≡ self.old.waits }
    {
        match (request.ask, answer) {
            (ask, Answer::Lost { side, why }) => self.repeat(&ask, Some(lost_code(*side, *why))),
            (ask, Answer::Back { side }) => self.repeat(&ask, Some(DiagCode::Back(*side))),
            (ask, Answer::Hold) => self.repeat(&ask, None),
            (ask, Answer::Alarm { ob, info }) => self.alarm(&ask, *ob, *info),
            (_, Answer::CpuStop(code)) => self.end(*code),
            (Ask::Outputs(_), Answer::Done) => self.spot = Spot::AtInputs,
            (Ask::Inputs, Answer::Image(image)) => self.begin_main(*image),
            (Ask::Cycle, Answer::Go) => self.spot = Spot::AtOutputs,
            (Ask::Cycle, Answer::Job(job)) => self.do_job(job),
            (Ask::Reply(_), Answer::Done) => self.spot = Spot::AtCycle,
            (Ask::Tick, Answer::Done) => self.resume_block(),
            (Ask::Now, Answer::Now(moment)) => self.time(*moment),
            (Ask::Retrigger, Answer::Done) => self.retrigger(),
            (Ask::ReadP { .. }, Answer::Value(value)) => self.complete_read(*value),
            (Ask::WriteP { addr, width, value }, Answer::Done) => {
                self.complete_write(addr, width, value);
            }
            (Ask::ReadP { .. } | Ask::WriteP { .. }, Answer::NoModule) => self.fail_access(),
            (Ask::Stop(code), Answer::Done) => self.end(code),
            _ => {}
        }
    }

    /// The request is made again, perhaps after a diagnostic entry.
    fn repeat(&mut self, ask: &Ask, code: Option<DiagCode>)
        requires sound { IsSound (config_of self.old) }
        requires stored { IsStored self.old }
        ensures repeated { config_of self.new ≡ record (config_of self.old) { place = again ask.now (config_of self.old).place; diag = with_newest self.old.diag self.old.at code } }
        ensures sound { IsSound (config_of self.new) }
        ensures stored { IsStored self.new }
        ensures waits { self.new.waits ≡ self.old.waits }
    {
        if let Some(code) = code {
            self.note(code);
        }
        if let Spot::At(spot) = self.spot {
            self.spot = Spot::At(BlockSpot {
                mode: again_mode(ask, spot.mode),
                ..spot
            });
        }
    }

    /// The block goes on with its statement.
    fn resume_block(&mut self)
        requires sound { IsSound (config_of self.old) }
        requires stored { IsStored self.old }
        ensures moved { config_of self.new ≡ record (config_of self.old) { place = resumed (config_of self.old).place } }
        ensures sound { IsSound (config_of self.new) }
        ensures stored { IsStored self.new }
        ensures waits { self.new.waits ≡ self.old.waits }
    {
        if let Spot::At(spot) = self.spot {
            self.spot = Spot::At(BlockSpot {
                mode: Mode::Fresh,
                ..spot
            });
        }
    }

    /// The statement that asked for the moment is completed by it, or fails.
    #[tactic(auto, using(crate::proofs::Begun::same_begun))]
    fn time(&mut self, moment: u64)
        requires sound { IsSound (config_of self.old) }
        requires stored { IsStored self.old }
        requires going { (config_of self.old).place ≢ Over }
        requires fresh { self.old.since ≡ 0 }
        ensures timed { Reacts (timed_at self.old.program self.old.memory (config_of self.old).place moment) (config_of self.old) self.old.at (config_of self.new) }
        ensures sound { IsSound (config_of self.new) }
        ensures stored { IsStored self.new }
        ensures going { (config_of self.new).place ≢ Over }
        ensures waits { self.new.waits ≡ self.old.waits }
    {
        let Spot::At(spot) = self.spot else {
            return;
        };
        let Some(Instruction::Timed(op, n)) = instruction_in(&self.program, spot) else {
            return;
        };
        match self.memory.execute_timed(op, n, moment) {
            Ok(()) => {
                self.spot = at_statement(spot, spot.at + 1);
                self.since = 1;
            }
            Err(error) => self.fail_answered(error, spot),
        }
    }

    /// The statement that asked to start the monitoring of the cycle anew is completed.
    fn retrigger(&mut self)
        requires sound { IsSound (config_of self.old) }
        requires stored { IsStored self.old }
        requires going { (config_of self.old).place ≢ Over }
        requires fresh { self.old.since ≡ 0 }
        ensures retriggered { Reacts (retriggered_at self.old.program self.old.memory (config_of self.old).place) (config_of self.old) self.old.at (config_of self.new) }
        ensures sound { IsSound (config_of self.new) }
        ensures stored { IsStored self.new }
        ensures going { (config_of self.new).place ≢ Over }
        ensures waits { self.new.waits ≡ self.old.waits }
    {
        let Spot::At(spot) = self.spot else {
            return;
        };
        let Some(Instruction::Retrigger) = instruction_in(&self.program, spot) else {
            return;
        };
        let mut after = self.memory.registers();
        after.status.after_block();
        self.memory.set_registers(after);
        let next = spot.at + 1;
        self.spot = at_statement(spot, next);
        self.since = 1;
    }

    /// The CPU stops.
    fn end(&mut self, code: StopCode)
        ensures stored { IsStored self.old → IsStored self.new }
        ensures ended { config_of self.new ≡ record (config_of self.old) { place = Over; diag = with_newest self.old.diag self.old.at (Some (DiagCode.Stop code)) } }
        ensures waits { self.new.waits ≡ self.old.waits }
    {
        self.note(DiagCode::Stop(code));
        self.spot = Spot::Over;
    }

    /// Makes a diagnostic entry.
    fn note(&mut self, code: DiagCode)
        ensures stored { IsStored self.old → IsStored self.new }
        ensures noted { config_of self.new ≡ record (config_of self.old) { diag = with_newest self.old.diag self.old.at (Some code) } }
        ensures waits { self.new.waits ≡ self.old.waits }
    {
        self.diag.note(self.at, code);
    }

    /// OB1 begins over the input image.
    #[tactic(auto, using(crate::proofs::Sound::no_level_at_inputs, crate::proofs::Sound::main_is_over))]
    fn begin_main(&mut self, image: [u8; 64])
        requires sound { IsSound (config_of self.old) }
        requires stored { IsStored self.old }
        requires here { (config_of self.old).place ≡ AtInputs }
        ensures moved { IsMoved (begins_main self.old.program self.old.memory image) (config_of self.old) self.old.since self.old.at None (config_of self.new) }
        ensures sound { IsSound (config_of self.new) }
        ensures stored { IsStored self.new }
        ensures waits { self.new.waits ≡ self.old.waits }
    {
        self.memory.set_inputs(image);
        self.memory.set_registers(Registers::clear());
        if let Err(code) = enter_main(&self.program, &self.index, &mut self.memory) {
            self.spot = Spot::AtStop(code);
            return;
        }
        let frame = Frame {
            spot: Spot::AtCycle,
            kept: Registers::clear(),
            returns: Returns::Whole,
        };
        let level = Level { in_error: false };
        self.begin_organisation_block(1, level, Cause::CycleBegan, frame);
    }

    /// The machine waits at a request.
    fn wait_at(&mut self, request: Request)
        ensures stored { IsStored self.old → IsStored self.new }
        ensures same { config_of self.new ≡ config_of self.old }
        ensures waits { self.new.waits ≡ Some request }
    {
        self.waits = Some(request);
    }

    /// The machine waits at a request of a block, with the priority of the level that runs.
    fn wait_in_block(&mut self, ask: Ask)
        ensures stored { IsStored self.old → IsStored self.new }
        ensures same { config_of self.new ≡ config_of self.old }
        ensures waits { self.new.waits ≡ Some (request_of ask (priority_in self.old.memory)) }
    {
        let priority = self.memory.priority();
        self.wait_at(request(ask, priority));
    }

    /// One turn: a statement, the end of a block, or the request that the place asks. Where it asks, the machine waits.
    fn step(&mut self)
        requires sound { IsSound (config_of self.old) }
        requires stored { IsStored self.old }
        requires ready { self.old.waits ≡ None }
        ensures turned { Follows (turn_of self.old.program self.old.since self.old.memory (config_of self.old).place) (config_of self.old) self.new.waits (config_of self.new) }
        ensures sound { IsSound (config_of self.new) }
        ensures stored { IsStored self.new }
    {
        match self.spot {
            Spot::AtOutputs => {
                let image = self.memory.outputs();
                self.wait_at(request(Ask::Outputs(image), 1));
            }
            Spot::AtInputs => self.wait_at(request(Ask::Inputs, 1)),
            Spot::AtCycle => self.wait_at(request(Ask::Cycle, 1)),
            Spot::AtReply(value) => self.wait_at(request(Ask::Reply(value), 1)),
            Spot::AtStop(code) => self.wait_at(stop_request(code)),
            Spot::Over => unreachable!(),
            Spot::At(spot) => self.act(spot),
        }
    }

    /// One turn in a block.
    fn act(&mut self, spot: BlockSpot)
        requires sound { IsSound (config_of self.old) }
        requires stored { IsStored self.old }
        requires ready { self.old.waits ≡ None }
        requires here { self.old.spot ≡ Spot.At spot }
        ensures turned { Follows (turn_of self.old.program self.old.since self.old.memory (config_of self.old).place) (config_of self.old) self.new.waits (config_of self.new) }
        ensures sound { IsSound (config_of self.new) }
        ensures stored { IsStored self.new }
    {
        match spot.mode {
            Mode::Timing => self.wait_in_block(Ask::Now),
            Mode::Ticking => self.wait_in_block(Ask::Tick),
            Mode::Retriggering => self.wait_in_block(Ask::Retrigger),
            Mode::Reading(access) => self.wait_to_read(access),
            Mode::Writing(access) => self.wait_to_write(access),
            Mode::Fresh => self.run(spot),
        }
    }

    /// The statement of a place, or the end of its block.
    #[tactic(auto, using(crate::proofs::Sound::high_some))]
    fn run(&mut self, spot: BlockSpot)
        requires sound { IsSound (config_of self.old) }
        requires stored { IsStored self.old }
        requires ready { self.old.waits ≡ None }
        requires here { (config_of self.old).place ≡ At spot.block spot.at (level_in spot.level) Fresh }
        requires code { IsCode self.old.program spot.code spot.block }
        ensures turned { Follows (turn_of self.old.program self.old.since self.old.memory (config_of self.old).place) (config_of self.old) self.new.waits (config_of self.new) }
        ensures sound { IsSound (config_of self.new) }
        ensures stored { IsStored self.new }
    {
        let Some(statement) = decoded_at(&self.decoded, spot) else {
            return self.leave();
        };
        if self.since >= 256 {
            return self.wait_in_block(Ask::Tick);
        }
        let flow = self.memory.perform(statement);
        self.follow(spot, flow)
    }

    /// The block goes to another of its statements.
    fn go_to(&mut self, next: usize)
        requires sound { IsSound (config_of self.old) }
        requires stored { IsStored self.old }
        ensures moved { config_of self.new ≡ record (config_of self.old) { place = gone_to (config_of self.old).place next } }
        ensures sound { IsSound (config_of self.new) }
        ensures stored { IsStored self.new }
        ensures waits { self.new.waits ≡ self.old.waits }
    {
        if let Spot::At(spot) = &mut self.spot {
            spot.at = next;
        }
    }

    /// Goes where a statement leads.
    fn follow(&mut self, spot: BlockSpot, flow: Flow)
        requires sound { IsSound (config_of self.old) }
        requires stored { IsStored self.old }
        requires ready { self.old.waits ≡ None }
        requires here { (config_of self.old).place ≡ At spot.block spot.at (level_in spot.level) Fresh }
        requires code { IsCode self.old.program spot.code spot.block }
        requires before { self.old.since < 256 }
        requires within { spot.at + 1 < 2 ^ 64 }
        ensures turned { Follows (flows self.old.program spot.block spot.at (level_in spot.level) self.old.memory flow) (config_of self.old) self.new.waits (config_of self.new) }
        ensures sound { IsSound (config_of self.new) }
        ensures stored { IsStored self.new }
    {
        let next = match flow {
            Flow::Next => spot.at + 1,
            Flow::Jump(target) => target as usize,
            Flow::Among { number, target } => jump_among(spot.at, number, target),
            Flow::End => end_of(&self.program, spot),
            Flow::Call(callee) => return self.call(callee, spot),
            Flow::CallInstance(callee, number) => {
                return self.call_instance(callee, number, spot);
            }
            Flow::Fail(error) => return self.fail_statement(error, spot),
            Flow::AskNow => return self.wait_in_block(Ask::Now),
            Flow::AskRetrigger => return self.wait_in_block(Ask::Retrigger),
            Flow::AskRead(access) => return self.wait_to_read(access),
            Flow::AskWrite(access) => return self.wait_to_write(access),
            Flow::Stop => return self.halt(StopCode::Sfc46),
        };
        self.go_to(next);
        self.since += 1;
    }

    /// The CPU asks to stop.
    fn halt(&mut self, code: StopCode)
        ensures halted { config_of self.new ≡ record (config_of self.old) { place = AtStop code } }
        ensures sound { IsSound (config_of self.old) → IsSound (config_of self.new) }
        ensures stored { IsStored self.old → IsStored self.new }
        ensures waits { self.new.waits ≡ Some (stop_request code) }
    {
        self.spot = Spot::AtStop(code);
        self.wait_at(stop_request(code));
    }

    /// A statement failed: a diagnostic entry is made, and its error OB begins, or the CPU asks to stop. How many
    /// statements were completed is left as it was.
    #[tactic(auto, using(crate::proofs::Begun::has_level))]
    fn fail(&mut self, error: u8, spot: BlockSpot) -> Option<Request>
        requires sound { IsSound (config_of self.old) }
        requires stored { IsStored self.old }
        requires here { IsHigh (length (config_of self.old).frames) (At spot.block spot.at (level_in spot.level) Fresh) }
        requires code { IsCode self.old.program spot.code spot.block }
        requires within { spot.at + 1 < 2 ^ 64 }
        ensures failed { IsTurned (fails self.old.program (At spot.block (spot.at + 1) (level_in spot.level) Fresh) (level_in spot.level) self.old.memory error) (config_of self.old) self.old.since self.old.at (config_of self.new) }
        ensures asks { result ≡ halts_with (fails self.old.program (At spot.block (spot.at + 1) (level_in spot.level) Fresh) (level_in spot.level) self.old.memory error) }
        ensures sound { IsSound (config_of self.new) }
        ensures stored { IsStored self.new }
        ensures going { (config_of self.new).place ≢ Over }
        ensures waits { self.new.waits ≡ self.old.waits }
    {
        match enter_error_ob(
            &self.program,
            &self.index,
            &mut self.memory,
            spot.level,
            error,
        ) {
            Ok(()) => {
                self.begin_error_ob(error, spot);
                None
            }
            Err(code) => {
                self.spot = Spot::AtStop(code);
                self.note(DiagCode::Error(error));
                Some(stop_request(code))
            }
        }
    }

    /// The OB of an error begins, once it has its local data; at its end the statement after the one that failed follows.
    fn begin_error_ob(&mut self, error: u8, spot: BlockSpot)
        requires stacked { AreStacked 0 (config_of self.old).frames }
        requires begun { AreBegun (length (config_of self.old).frames + 1) self.old.memory.levels }
        requires local { 20 ≤ length (running_locals self.old.memory.levels) }
        requires room { length (config_of self.old).frames < 504 }
        requires stored { IsStored self.old }
        requires here { IsHigh (length (config_of self.old).frames) (At spot.block spot.at (level_in spot.level) Fresh) }
        requires code { IsCode self.old.program spot.code spot.block }
        requires within { spot.at + 1 < 2 ^ 64 }
        ensures failed { IsTurned (failed (At spot.block (spot.at + 1) (level_in spot.level) Fresh) (level_in spot.level) self.old.memory error (Ok self.old.memory)) (config_of self.old) self.old.since self.old.at (config_of self.new) }
        ensures sound { IsSound (config_of self.new) }
        ensures stored { IsStored self.new }
        ensures going { (config_of self.new).place ≢ Over }
        ensures waits { self.new.waits ≡ self.old.waits }
    {
        let registers = self.memory.registers();
        let after = spot.at + 1;
        let frame = Frame {
            spot: at_statement(spot, after),
            kept: registers,
            returns: Returns::Whole,
        };
        let level = Level { in_error: true };
        self.memory.set_registers(error_registers(&registers));
        let cause = Cause::StatementFailed(error);
        self.begin_organisation_block(error_ob(error), level, cause, frame);
        self.note(DiagCode::Error(error));
    }

    /// A statement fails. It is completed where its error OB begins.
    #[tactic(auto, using(crate::proofs::Sound::turned_moves, crate::proofs::Sound::turned_halts))]
    fn fail_statement(&mut self, error: u8, spot: BlockSpot)
        requires sound { IsSound (config_of self.old) }
        requires stored { IsStored self.old }
        requires ready { self.old.waits ≡ None }
        requires here { IsHigh (length (config_of self.old).frames) (At spot.block spot.at (level_in spot.level) Fresh) }
        requires code { IsCode self.old.program spot.code spot.block }
        requires before { self.old.since < 256 }
        requires within { spot.at + 1 < 2 ^ 64 }
        ensures turned { Follows (fails self.old.program (At spot.block (spot.at + 1) (level_in spot.level) Fresh) (level_in spot.level) self.old.memory error) (config_of self.old) self.new.waits (config_of self.new) }
        ensures sound { IsSound (config_of self.new) }
        ensures stored { IsStored self.new }
    {
        match self.fail(error, spot) {
            Some(request) => self.wait_at(request),
            None => self.since += 1,
        }
    }

    /// A statement that asked is completed by its answer, and fails.
    #[tactic(auto, using(crate::proofs::Sound::turned_since))]
    fn fail_answered(&mut self, error: u8, spot: BlockSpot)
        requires sound { IsSound (config_of self.old) }
        requires stored { IsStored self.old }
        requires here { IsHigh (length (config_of self.old).frames) (At spot.block spot.at (level_in spot.level) Fresh) }
        requires code { IsCode self.old.program spot.code spot.block }
        requires within { spot.at + 1 < 2 ^ 64 }
        ensures turned { IsTurned (fails self.old.program (At spot.block (spot.at + 1) (level_in spot.level) Fresh) (level_in spot.level) self.old.memory error) (config_of self.old) 1 self.old.at (config_of self.new) }
        ensures sound { IsSound (config_of self.new) }
        ensures stored { IsStored self.new }
        ensures going { (config_of self.new).place ≢ Over }
        ensures waits { self.new.waits ≡ self.old.waits }
    {
        let _ = self.fail(error, spot);
        self.since = 1;
    }
}
