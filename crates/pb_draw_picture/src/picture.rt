//! Shapes with their places, in pixels from the upper left corner.

ghost use Rattle.std.specs.Prelude.{◌≤◌};
ghost use Rattle.pb_draw_picture.specs.declared.sizes.TheConstants.{HIGHEST, WIDEST};

/// What a rectangle stands for.
#[derive(Clone, Copy, Debug, PartialEq, Eq)]
pub enum RectKind {
    /// A silent stretch that is shortened.
    Gap,
    /// An arm that is live and does not wait for a request.
    Going,
    /// An arm that asks for more than there is cash.
    Short,
    /// An arm that asks for what the banker keeps back.
    KeptBack,
    /// A hold, in the colour of this resource: the first of its bundle.
    Hold(usize),
    /// The cash of the resource with this number: the area below its step curve.
    Cash(usize),
    /// The curve itself.
    Level,
}

/// A rectangle.
#[derive(Clone, Copy)]
pub struct Rect {
    pub kind: RectKind,
    pub x: u64,
    pub y: u64,
    pub width: u64,
    pub height: u64,
}

/// The line of an arm that is kept back.
#[derive(Drop)]
pub struct Wait {
    pub rect: Rect,
    /// Why, which a viewer shows when it is pointed at.
    pub title: Vec<u8>,
    /// What is written above the line, if there is room: who could not finish.
    pub label: Vec<u8>,
    pub label_x: u64,
    pub label_y: u64,
}

/// What a label stands for.
#[derive(Clone, Copy, Debug, PartialEq, Eq)]
pub enum LabelKind {
    /// The name of an arm or a resource.
    Name,
    /// The name of an arm once more.
    Again,
    /// The number of a pick.
    Number,
    /// How many silent picks a shortened stretch has.
    Silent,
    /// The bundle of a hold.
    Bundle,
    /// An amount of cash.
    Amount,
    /// What the picture shows.
    Note,
    /// That the run ends in a deadlock.
    Deadlock,
}

/// A label, with the place where it begins.
#[derive(Drop)]
pub struct Label {
    pub kind: LabelKind,
    pub x: u64,
    pub y: u64,
    pub text: Vec<u8>,
}

/// What a mark stands for: the kind of an event, a read, or an assignment.
#[derive(Clone, Copy, Debug, PartialEq, Eq)]
pub enum TickKind {
    Grant,
    Return,
    Print,
    Fault,
    End,
    Read,
    Assign,
}

/// The mark of an event, of a read or of an assignment.
#[derive(Drop)]
pub struct Tick {
    pub kind: TickKind,
    pub x: u64,
    pub y: u64,
    /// The line of the event, the read or the assignment, which a viewer shows when it is pointed at.
    pub title: Vec<u8>,
    /// What is written beside the mark, if anything.
    pub label: Vec<u8>,
    pub label_x: u64,
    pub label_y: u64,
}

/// A picture.
#[derive(Drop)]
pub struct Picture {
    pub width: u64,
    pub height: u64,
    pub rects: Vec<Rect>,
    pub waits: Vec<Wait>,
    pub labels: Vec<Label>,
    pub ticks: Vec<Tick>,
    pub ghost near: { width ≤ WIDEST },
    pub ghost low: { height ≤ HIGHEST },
}

/// How large a picture is shown.
#[derive(Clone, Copy, Debug, PartialEq, Eq)]
pub struct Size {
    /// How wide it is at 100 percent, in pixels, if not as wide as its shapes are.
    pub width: Option<u32>,
    /// How large it is, in percent.
    pub scale: u16,
}
