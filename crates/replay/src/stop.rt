// What ends a command before it has an answer.
use ciphers::fault::Fault;
use rows::RowError;
use std::alloc::AllocError;

#[derive(Drop)]
pub enum Stop {
    Refused(Fault),
    // The command is not carried out.
    LeftOut,
    // It is not carried out, and from here on the library's state is no longer tink-core's.
    Lost,
    // The list cannot be read, or there is no memory.
    Failed(anyhow::Error),
}

// By hand, since `thiserror` would ask a text of each variant, and a `Stop` is never printed.
impl From<Fault> for Stop {
    fn from(fault: Fault) -> Stop {
        Stop::Refused(fault)
    }
}

impl From<anyhow::Error> for Stop {
    fn from(error: anyhow::Error) -> Stop {
        Stop::Failed(error)
    }
}

impl From<RowError> for Stop {
    fn from(error: RowError) -> Stop {
        Stop::Failed(anyhow::Error::from(error))
    }
}

impl From<AllocError> for Stop {
    fn from(error: AllocError) -> Stop {
        Stop::Failed(anyhow::Error::from(error))
    }
}
