use quorum::Refusal;
use std::io;
use thiserror::Error;

// Why a survey stops before its end. The name of the case is printed with the error, and an
// `anyhow::Error` would print the error alone.
#[derive(Debug, Drop, Error)]
pub(crate) enum Stop {
    #[error(transparent)]
    Refused(#[from] Refusal),
    #[error(transparent)]
    Output(#[from] io::Error),
}
