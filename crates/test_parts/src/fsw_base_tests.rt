//! Standard input and output, of which no contract says what they give and take.
use fsw_base::{ReadAnswer, Sink, Source, StdSink, StdSource, WriteAnswer};
use std::test::Fail;

#[test]
fn standard_input_ends_or_gives_bytes(rt: HostRuntime) -> Result<(), Fail> {
    let mut source = StdSource::new(rt.stdin());
    let mut buf = [0; 8];
    assert_ne!(rt; source.read(&mut buf), ReadAnswer::Failed);
    Ok(())
}

#[test]
fn standard_output_takes_bytes(rt: HostRuntime) -> Result<(), Fail> {
    let mut sink = StdSink::new(rt.stdout());
    assert_eq!(rt; sink.write(b"taken\n"), WriteAnswer::Took(6));
    Ok(())
}
