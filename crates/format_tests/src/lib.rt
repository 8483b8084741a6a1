//! Tests of `format` on whole documents, in a crate of their own so that `format` is proved once.
#![tactic(auto)]

#[cfg(test)]
mod tests {
    use format::read::read_claim;
    use format::recording::{Fault, read_recording, readings_of};
    use format::refusal::{Document, Refusal};
    use format::report::Report;
    use format::write::{write, write_certificate, write_design, write_faces};
    use std::alloc::{AllocError, Global};
    use std::test::Fail;

    const PLANT: [i64; 11] = [2, 110, 100, 90, 20, 0, 95, 0, 10, 50, 50];

    const LAW: [i64; 5] = [2, 2, 7, 2, 1];

    const FACES: [[i64; 3]; 4] = [[1, 0, 21], [-1, 0, 21], [0, 1, 8], [0, -1, 8]];

    const MULTIPLIERS: [[i64; 4]; 10] = [
        [180, 0, 40, 0],
        [0, 180, 0, 40],
        [0, 20, 120, 0],
        [20, 0, 0, 120],
        [2, 0, 7, 0],
        [0, 2, 0, 7],
        [1, 0, 0, 0],
        [0, 1, 0, 0],
        [0, 0, 1, 0],
        [0, 0, 0, 1],
    ];

    // The bytes of the numbers, after what is there already.
    fn add(bytes: &mut Vec<u8>, numbers: &[i64]) -> Result<(), AllocError> {
        for x in numbers {
            bytes.extend_from_slice(&x.to_le_bytes())?;
        }
        Ok(())
    }

    fn head_design(heap: Global) -> Result<Vec<u8>, AllocError> {
        let mut bytes = Vec::new(heap);
        add(&mut bytes, &PLANT)?;
        add(&mut bytes, &LAW)?;
        Ok(bytes)
    }

    // A number, and then rows of numbers: a set or a sheet.
    fn rows<const K: usize>(
        heap: Global,
        first: i64,
        rows: &[[i64; K]],
    ) -> Result<Vec<u8>, AllocError> {
        let mut bytes = Vec::new(heap);
        add(&mut bytes, &[first])?;
        for row in rows {
            add(&mut bytes, row)?;
        }
        Ok(bytes)
    }

    #[test]
    fn the_worked_head_reads_and_writes_back(rt: HostRuntime) -> Result<(), Fail> {
        let heap = rt.alloc();
        let design = head_design(heap)?;
        let set = rows(heap, 4, &FACES)?;
        let sheet = rows(heap, 1, &MULTIPLIERS)?;
        let Ok(claim) = read_claim(&design, &set, &sheet) else {
            return Err(Fail::new("the head is refused"));
        };
        assert_eq!(rt; claim.design.n, 2);
        assert_eq!(rt; claim.design.plant.a.entry(7), 95);
        assert_eq!(rt; claim.faces.h.entry(6), -1);
        assert_eq!(rt; claim.faces.tops.entry(3), 8);
        assert_eq!(rt; claim.certificate.m.entry(24 * 3 + 3), 120);
        assert_eq!(rt; claim.certificate.w.entry(24 + 3), 7);
        assert_eq!(rt; write(&claim.design, heap)?, design);
        assert_eq!(rt; write(&claim.faces, heap)?, set);
        assert_eq!(rt; write(&claim.certificate, heap)?, sheet);
        assert_eq!(rt; write_design(&claim.design, heap)?, design);
        assert_eq!(rt; write_faces(&claim.faces, heap)?, set);
        assert_eq!(rt; write_certificate(&claim.certificate, heap)?, sheet);
        Ok(())
    }

    #[test]
    fn a_wrong_length_comes_before_a_number_out_of_range(rt: HostRuntime) -> Result<(), Fail> {
        let heap = rt.alloc();
        let mut design = Vec::new(heap);
        add(&mut design, &[7])?;
        let set = rows(heap, 4, &FACES)?;
        let refusal = Refusal::Length {
            document: Document::Sheet,
            place: 3,
        };
        assert_eq!(rt; read_claim(&design, &set, &[1, 2, 3]), Err(refusal));
        Ok(())
    }

    // Two beats of two numbers: of each, what three sensors sent.
    const SENT: [[i16; 3]; 4] = [[1, 2, 3], [-1, -32_768, 32_767], [256, 512, 768], [4, 5, 6]];

    // Their bytes, with the last byte of each padding as given.
    fn recorded(heap: Global, padding: u8) -> Result<Vec<u8>, AllocError> {
        let mut bytes = Vec::new(heap);
        for readings in &SENT {
            for x in readings {
                bytes.extend_from_slice(&x.to_le_bytes())?;
            }
            bytes.extend_from_slice(&[0, 0, padding])?;
        }
        Ok(bytes)
    }

    #[test]
    fn a_recording_of_two_beats_is_read(rt: HostRuntime) -> Result<(), Fail> {
        let heap = rt.alloc();
        let design = head_design(heap)?;
        let set = rows(heap, 4, &FACES)?;
        let bytes = recorded(heap, 0)?;
        let Ok(recording) = read_recording(&design, &set, &bytes) else {
            return Err(Fail::new("the head is refused"));
        };
        assert_eq!(rt; recording.design.n, 2);
        assert_eq!(rt; recording.faces.count, 4);
        assert_eq!(rt; recording.beats, 2);
        Ok(())
    }

    #[test]
    fn the_readings_of_a_beat_are_those_sent(rt: HostRuntime) -> Result<(), Fail> {
        let bytes = recorded(rt.alloc(), 0)?;
        let first = readings_of(2, &bytes);
        assert_eq!(rt; first[2][0].0, 3);
        assert_eq!(rt; first[1][1].0, -32_768);
        assert_eq!(rt; first[2][1].0, 32_767);
        assert_eq!(rt; first[0][2].0, 0);
        let Some(rest) = bytes.get(18..) else {
            return Err(Fail::new("there is no second beat"));
        };
        assert_eq!(rt; readings_of(2, rest)[1][0].0, 512);
        Ok(())
    }

    #[test]
    fn a_part_of_a_beat_is_refused_before_its_padding(rt: HostRuntime) -> Result<(), Fail> {
        let heap = rt.alloc();
        let design = head_design(heap)?;
        let set = rows(heap, 4, &FACES)?;
        let mut bytes = recorded(heap, 1)?;
        bytes.pop();
        let fault = Fault::Beats { place: 35 };
        assert_eq!(rt; read_recording(&design, &set, &bytes), Err(fault));
        Ok(())
    }

    #[test]
    fn padding_is_refused_before_a_number_out_of_range(rt: HostRuntime) -> Result<(), Fail> {
        let heap = rt.alloc();
        let design = head_design(heap)?;
        let set = rows(heap, 1, &[[101, 0, 21]])?;
        let bytes = recorded(heap, 1)?;
        let Err(fault) = read_recording(&design, &set, &bytes) else {
            return Err(Fail::new("it is read"));
        };
        let report = Report {
            number: 1,
            place: 8,
        };
        assert_eq!(rt; fault.report(), report);
        Ok(())
    }

    #[test]
    fn nothing_is_asked_of_readings_while_the_size_cannot_be_told(
        rt: HostRuntime,
    ) -> Result<(), Fail> {
        let heap = rt.alloc();
        let mut design = Vec::new(heap);
        add(&mut design, &[7])?;
        let set = rows(heap, 4, &FACES)?;
        let fault = Fault::Documents(Refusal::Range {
            document: Document::Design,
            place: 0,
        });
        assert_eq!(rt; read_recording(&design, &set, &[1, 2, 3]), Err(fault));
        Ok(())
    }
}
