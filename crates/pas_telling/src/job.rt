//! A trace to be generated.
ghost use Rattle.pas_generate.specs.Traces.{IsJob};

/// Which trace is to be generated: its seed, 1 to 200,000 operations, of 1 to 16 threads, over 2 to 4,096 pages.
#[derive(Clone, Copy, Drop)]
pub struct Job {
    pub seed: u64,
    pub ops: u32,
    pub threads: u8,
    pub pages: u32,
    ghost valid: { IsJob ops threads pages },
}
