//! The adapters over std, over files that the test wrote.
use std::fs;
use std::test::Fail;
use ws_io::{Files, LoadRefused, Sink, Source, StdFiles, StdSink, StdSource};
use ws_value::Text;

const TEXT: &[u8] = b"version = 1\n";

const NAME: &str = "ws_tests_a_file";

/// That a source reads what a file holds, a sink leaves in a file what was written to it, and a load is a file's text.
#[test]
fn adapters_over_files(rt: HostRuntime) -> Result<(), Fail> {
    let alloc = rt.alloc();
    let mut sink = StdSink::over(fs::create(&rt, NAME)?);
    assert!(rt; sink.write(TEXT) == Ok(TEXT.len()) && sink.finish() == Ok(()));
    assert!(rt; fs::read(&rt, NAME)?.as_slice() == TEXT);
    fs::write(&rt, NAME, TEXT)?;
    let mut source = StdSource::over(alloc, fs::open(&rt, NAME)?);
    let mut room = [0u8; 64];
    assert!(rt; source.read(&mut room) == Ok(TEXT.len()) && room.starts_with(TEXT));
    assert!(rt; source.read(&mut room) == Ok(0));
    let loaded = StdFiles::over(&rt).load(alloc, &Text::of(alloc, NAME.as_bytes())?);
    assert!(rt; matches!(&loaded, Ok(text) if text.as_slice() == TEXT));
    fs::remove_file(&rt, NAME)?;
    let gone = StdFiles::over(&rt).load(alloc, &Text::of(alloc, NAME.as_bytes())?);
    assert!(rt; matches!(gone, Err(LoadRefused::Failed)));
    Ok(())
}
