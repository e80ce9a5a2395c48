// Messages that are delivered together.
use rules::Message;

// The messages with the numbers from the first to the last. Where there are none, the last is one
// below the first. No range of the library, which is not Copy: a group is handed on more than
// once.
#[derive(Clone, Copy)]
pub(crate) struct Group {
    pub(crate) first: u64,
    pub(crate) last: u64,
}

impl Group {
    // How many messages these are.
    pub(crate) fn len(self) -> u64 {
        self.last.saturating_add(1).saturating_sub(self.first)
    }
}

// Which messages of a group are delivered. Names, and no closures: a step of the story then reads
// as what it delivers.
#[derive(Clone, Copy)]
pub(crate) enum Which {
    All,
    // what goes to operations, and not from server to server
    Answers,
    // invalidations for other towers than the one with this number
    ToOthersThan(u8),
}

impl Which {
    pub(crate) fn takes(self, message: &Message) -> bool {
        match self {
            Which::All => true,
            Which::Answers => message.operation().is_some(),
            Which::ToOthersThan(tower) => match message {
                Message::Invalidation { output, .. } => *output != tower,
                _ => false,
            },
        }
    }
}
