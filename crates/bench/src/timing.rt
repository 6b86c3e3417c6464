// How long a piece of work takes.
use std::time::Instant;

#[derive(Clone, Copy)]
pub(crate) struct Timing {
    begun: Instant,
}

impl Timing {
    pub(crate) fn begun(rt: &HostRuntime) -> anyhow::Result<Timing> {
        Ok(Timing {
            begun: Instant::now(rt)?,
        })
    }

    // In seconds, to standard error, since it is another in each run.
    pub(crate) fn show(self, rt: &HostRuntime, name: &str) -> anyhow::Result<()> {
        let took = self.begun.elapsed(rt)?;
        let seconds = took.as_secs();
        let micros = took.subsec_micros();
        Ok(eprintln!(rt; "{name} {seconds}.{micros:06}")?)
    }
}
