//! The operations of the language. Those that do the same kind of thing stand in one enum, which the crates that carry
//! them out use too.
ghost use Rattle.std.specs.Prelude.{◌≡◌};
ghost use Rattle.instruction_set.specs.Sizes.{is_wide};

/// How a check combines its operand with the result so far.
#[derive(Clone, Copy, Debug, PartialEq, Eq)]
pub enum Check {
    /// `A`
    And,
    /// `AN`
    AndNot,
    /// `O`
    Or,
    /// `ON`
    OrNot,
    /// `X`
    Xor,
    /// `XN`
    XorNot,
}

/// Writes of a bit; S and R are of timers and counters too, as their operand says.
#[derive(Clone, Copy, Debug, PartialEq, Eq)]
pub enum BitWrite {
    /// `=`
    Assign,
    /// `S`
    Set,
    /// `R`
    Reset,
}

/// Statements on the RLO alone.
#[derive(Clone, Copy, Debug, PartialEq, Eq)]
pub enum RloOperation {
    /// `NOT`
    NegateRlo,
    /// `SET`
    SetRlo,
    /// `CLR`
    ClearRlo,
    /// `SAVE`
    SaveRlo,
}

/// The edges of the RLO.
#[derive(Clone, Copy, Debug, PartialEq, Eq)]
pub enum Edge {
    /// `FP`
    Rising,
    /// `FN`
    Falling,
}

/// The master control relay (MCR): its area and its zones.
#[derive(Clone, Copy, Debug, PartialEq, Eq)]
pub enum MasterControl {
    /// `MCRA`
    Activate,
    /// `MCRD`
    Deactivate,
    /// `MCR(`
    OpenZone,
    /// `)MCR`
    CloseZone,
}

/// The statements that move or change accumulators and leave the status word.
#[derive(Clone, Copy, Debug, PartialEq, Eq)]
pub enum Move {
    /// `PUSH`
    Push,
    /// `POP`
    Pop,
    /// `ENT`
    Ent,
    /// `LEAVE`
    Leave,
    /// `TAK`
    Tak,
    /// `CAW`
    Caw,
    /// `CAD`
    Cad,
    /// `INVI`
    Invi,
    /// `INVD`
    Invd,
    /// `ITD`
    Itd,
}

/// The statements on numbers that give a result, CC1 CC0 and an overflow.
#[derive(Clone, Copy, Debug, PartialEq, Eq)]
pub enum Num {
    /// `+I`
    AddI,
    /// `-I`
    SubI,
    /// `*I`
    MulI,
    /// `/I`
    DivI,
    /// `+D`
    AddD,
    /// `-D`
    SubD,
    /// `*D`
    MulD,
    /// `/D`
    DivD,
    /// `MOD`
    ModD,
    /// `NEGI`
    NegI,
    /// `NEGD`
    NegD,
}

/// How wide the values are that a statement works on.
#[derive(Clone, Copy, Debug, PartialEq, Eq)]
pub enum WordSize {
    /// 16 bits: words and integers.
    Word,
    /// 32 bits: double words and double integers.
    DoubleWord,
}

impl WordSize {
    /// Whether the values have 32 bits.
    pub fn is_wide(self) -> bool
        ensures { result ≡ is_wide self }
    {
        self == WordSize::DoubleWord
    }
}

/// The relation of ACCU2, on the left, to ACCU1 that a comparison asks for.
#[derive(Clone, Copy, Debug, PartialEq, Eq)]
pub enum Cmp {
    /// `==`
    Eq,
    /// `<>`
    Ne,
    /// `>`
    Gt,
    /// `<`
    Lt,
    /// `>=`
    Ge,
    /// `<=`
    Le,
}

/// Logic on words and double words.
#[derive(Clone, Copy, Debug, PartialEq, Eq)]
pub enum Word {
    /// `AW` `AD`
    And,
    /// `OW` `OD`
    Or,
    /// `XOW` `XOD`
    Xor,
}

/// Shifts and rotations of ACCU1.
#[derive(Clone, Copy, Debug, PartialEq, Eq)]
pub enum Shift {
    /// `SSI`: the low word as a signed number, to the right.
    Ssi,
    /// `SSD`: the whole as a signed number, to the right.
    Ssd,
    /// `SLW`: the low word to the left.
    Slw,
    /// `SRW`: the low word to the right.
    Srw,
    /// `SLD`: the whole to the left.
    Sld,
    /// `SRD`: the whole to the right.
    Srd,
    /// `RLD`: a rotation to the left.
    Rld,
    /// `RRD`: a rotation to the right.
    Rrd,
}

/// The jumps that the status word decides.
#[derive(Clone, Copy, Debug, PartialEq, Eq)]
pub enum Jump {
    /// `JU`
    Ju,
    /// `JC`
    Jc,
    /// `JCN`
    Jcn,
    /// `JCB`
    Jcb,
    /// `JNB`
    Jnb,
    /// `JBI`
    Jbi,
    /// `JNBI`
    Jnbi,
    /// `JO`
    Jo,
    /// `JOS`
    Jos,
    /// `JZ`
    Jz,
    /// `JN`
    Jn,
    /// `JP`
    Jp,
    /// `JM`
    Jm,
    /// `JPZ`
    Jpz,
    /// `JMZ`
    Jmz,
    /// `JUO`
    Juo,
}

/// The kinds of timer.
#[derive(Clone, Copy, Debug, PartialEq, Eq)]
pub enum TimerKind {
    /// `SP`: a pulse.
    Sp,
    /// `SE`: an extended pulse.
    Se,
    /// `SD`: an on-delay.
    Sd,
    /// `SS`: a stored on-delay.
    Ss,
    /// `SF`: an off-delay.
    Sf,
}

/// Data blocks, calls, and ends of blocks.
#[derive(Clone, Copy, Debug, PartialEq, Eq)]
pub enum BlockOperation {
    /// `OPN DB`
    OpenData,
    /// `OPN DI`
    OpenInstance,
    /// `CDB`
    ExchangeData,
    /// `CALL FC`
    CallFunction,
    /// `CALL FB` with its data block
    CallFunctionBlock,
    /// `CALL SFC 43`
    CallRetrigger,
    /// `CALL SFC 46`
    CallStop,
    /// `UC FC`
    UnconditionalCallFunction,
    /// `UC FB`
    UnconditionalCallFunctionBlock,
    /// `CC FC`
    ConditionalCallFunction,
    /// `CC FB`
    ConditionalCallFunctionBlock,
    /// `BE`
    End,
    /// `BEC`
    ConditionalEnd,
    /// `BEU`
    UnconditionalEnd,
}

/// Statements that do nothing.
#[derive(Clone, Copy, Debug, PartialEq, Eq)]
pub enum NoOperation {
    /// `NOP 0`
    Nop0,
    /// `NOP 1`
    Nop1,
    /// `BLD`
    Display,
}

/// An operation of the language.
#[derive(Clone, Copy, Debug, PartialEq, Eq)]
pub enum Operation {
    /// `A AN O ON X XN`
    Check(Check),
    /// `O` without an operand
    AndBeforeOr,
    /// `A( AN( O( ON( X( XN(`
    Open(Check),
    /// `)`
    Close,
    /// `= S R`
    Write(BitWrite),
    /// `NOT SET CLR SAVE`
    Rlo(RloOperation),
    /// `FP FN`
    Edge(Edge),
    /// `MCRA MCRD MCR( )MCR`
    MasterControl(MasterControl),
    /// `L`
    Load,
    /// `T`
    Transfer,
    /// `LC`
    LoadCoded,
    /// `PUSH POP ENT LEAVE TAK CAW CAD INVI INVD ITD`
    Move(Move),
    /// `INC`
    Increment,
    /// `DEC`
    Decrement,
    /// `+`
    AddConstant,
    /// `+I -I *I /I +D -D *D /D MOD NEGI NEGD`
    Number(Num),
    /// `BTI BTD`
    FromBcd(WordSize),
    /// `ITB DTB`
    ToBcd(WordSize),
    /// `==I` and the like, `==D` and the like
    Compare(Cmp, WordSize),
    /// `AW OW XOW AD OD XOD`
    WordLogic(Word, WordSize),
    /// `SSI SSD SLW SRW SLD SRD RLD RRD`
    Shift(Shift),
    /// `JU JC` and the like
    Jump(Jump),
    /// `JL`
    JumpList,
    /// `LOOP`
    Loop,
    /// `SP SE SD SS SF`
    StartTimer(TimerKind),
    /// `FR` of a timer
    EnableTimer,
    /// `CU`
    CountUp,
    /// `CD`
    CountDown,
    /// `FR` of a counter
    EnableCounter,
    /// `OPN CDB CALL UC CC BE BEC BEU`
    Block(BlockOperation),
    /// `NOP BLD`
    NoOperation(NoOperation),
}
