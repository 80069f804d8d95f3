//! What the command line names, read.

use programs::requests::{Request, RunOptions, Source};
use programs::{BROKEN_OFF, Input, source_name};
use std::rt::Runtime;

/// A script, and certificates if they are to be checked.
#[derive(Drop)]
pub(crate) struct Given<'r> {
    pub script_name: &'r str,
    pub script: String,
    pub options: RunOptions,
    pub certificates_name: &'r str,
    pub certificates: Option<Vec<u8>>,
}

impl<'r> Given<'r> {
    /// Reads the script first, and then the certificates, where standard input may be typed at a terminal; or gives the status to end with where one of
    /// them can't be read.
    pub(crate) fn read<R: Runtime + AllocGlobal>(
        input: &Input<R>,
        request: &'r Request,
    ) -> Result<Given<'r>, u8> {
        let (Request::Run { script, .. } | Request::Check { script, .. }) = request;
        let script_name = source_name(script);
        let script = input.read_script(script)?;
        let certificates = read_certificates(input, request)?;
        let certificates_name = match request {
            Request::Run { .. } => "",
            Request::Check { certificates, .. } => source_name(certificates),
        };
        Ok(Given {
            script_name,
            script,
            options: options_of(request),
            certificates_name,
            certificates,
        })
    }
}

/// How the script is run: as ever where certificates are to be checked.
fn options_of(request: &Request) -> RunOptions {
    match request {
        Request::Run { options, .. } => *options,
        Request::Check { .. } => RunOptions {
            stops: false,
            is_timed: false,
            form: None,
        },
    }
}

/// The bytes of the certificates, if they are to be checked, or the status to end with where they can't be read.
fn read_certificates<R: Runtime + AllocGlobal>(
    input: &Input<R>,
    request: &Request,
) -> Result<Option<Vec<u8>>, u8> {
    match request {
        Request::Run { .. } => Ok(None),
        Request::Check {
            script: Source::StandardInput,
            certificates: Source::StandardInput,
        } => {
            input.standard_error.tell("only one of script and certificates can be standard input");
            Err(BROKEN_OFF)
        }
        Request::Check { certificates, .. } => Ok(Some(input.read(certificates)?)),
    }
}
