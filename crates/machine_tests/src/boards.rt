//! Single steps and power-ups on small images, from the description of the board; what a run shows of them are rows.
ghost use Rattle.std.specs.Prelude.{◌≤◌, length};

use fram_board::{Board, Heard, Stepped};
use image_text::Image;
use msp_isa::{IndexRegister, Reg};
use msp_step::Stop;
use std::alloc::{AllocError, Global};
use std::process::Abort;
use std::test::Fail;

const R4: Reg = Reg::Index(IndexRegister::R4);

const SP: Reg = Reg::Index(IndexRegister::Sp);

/// A board with these words from 0x4400 on, and the reset vector at their beginning.
fn board_of(alloc: Global, words: &[u16], readings: &[u16]) -> Result<Board, AllocError>
    requires words { length words.now ≤ 64 }
    requires readings { length readings.now ≤ 64 }
{
    let mut image = Image::blank(alloc)?;
    for i in 0..words.len() {
        image.set(0x4400 + 2 * i as u16, words[i]);
    }
    image.set(0xfffe, 0x4400);
    Board::new(alloc, &image, readings, &[])
}

/// One step of a board whose receiver heard few words.
fn step(rt: &impl Abort, board: &mut Board) -> Result<Stepped, Stop> {
    assert!(rt; board.accepted() < 1000 && board.repeats() < 1000);
    board.step()
}

/// How many words were accepted and repeated, and how many readings were taken.
type Counts = (u64, u64, u32);

/// The board makes these steps or stops, and has these counts behind each.
fn makes(rt: &impl Abort, board: &mut Board, wanted: &[(Result<Stepped, Stop>, Counts)]) {
    for (made, counts) in wanted {
        assert_eq!(rt; step(rt, board), *made);
        assert_eq!(rt; (board.accepted(), board.repeats(), board.taken()), *counts);
    }
}

fn plain(cycles: u32, wrote: Option<u16>) -> Result<Stepped, Stop> {
    Ok(Stepped {
        cycles,
        wrote,
        took: 0,
        accepted: None,
        heard: Heard::Nothing,
        sent: None,
    })
}

fn took(cycles: u32, took: u32) -> Result<Stepped, Stop> {
    Ok(Stepped {
        cycles,
        wrote: None,
        took,
        accepted: None,
        heard: Heard::Nothing,
        sent: None,
    })
}

/// A word is sent, and accepted or not.
fn sent(accepted: Option<u16>) -> Result<Stepped, Stop> {
    Ok(Stepped {
        cycles: 5,
        wrote: Some(0x0204),
        took: 0,
        accepted,
        heard: Heard::Nothing,
        sent: None,
    })
}

#[test]
fn words_are_accepted_once(rt: HostRuntime) -> Result<(), Fail> {
    // mov #0,&0x0202; mov #77,&0x0204, twice; bis #16,sr
    let code = [
        0x4382, 0x0202, 0x40b2, 77, 0x0204, 0x40b2, 77, 0x0204, 0xd032, 0x0010,
    ];
    let mut board = board_of(rt.alloc(), &code, &[])?;
    assert_eq!(rt; board.cost(), Ok(4));
    makes(
        &rt,
        &mut board,
        &[
            (plain(4, Some(0x0202)), (0, 0, 0)),
            (sent(Some(77)), (1, 0, 0)),
            (sent(None), (1, 1, 0)),
            (plain(2, None), (1, 1, 0)),
            (Err(Stop::Off), (1, 1, 0)),
        ],
    );
    assert_eq!(rt; board.cost(), Err(Stop::Off));
    // both counts outlive power loss
    board.power_up(0);
    makes(&rt, &mut board, &[(plain(4, Some(0x0202)), (1, 1, 0))]);
    Ok(())
}

#[test]
fn readings_are_taken_in_order(rt: HostRuntime) -> Result<(), Fail> {
    // mov &0x0200,r4; cmp &0x0200,&0x0200, twice: the last reading is taken, and stays taken though the instruction stops
    let code = [
        0x4214, 0x0200, 0x9292, 0x0200, 0x0200, 0x9292, 0x0200, 0x0200,
    ];
    let mut board = board_of(rt.alloc(), &code, &[5, 7, 9, 11])?;
    makes(
        &rt,
        &mut board,
        &[
            (took(3, 1), (0, 0, 1)),
            (took(6, 2), (0, 0, 3)),
            (Err(Stop::NoReading), (0, 0, 4)),
        ],
    );
    let cpu = board.cpu();
    assert_eq!(rt; (cpu.reg(R4), cpu.reg(Reg::Pc)), (5, 0x440a));
    assert_eq!(rt; board.cost(), Ok(6));
    board.power_up(0);
    makes(&rt, &mut board, &[(Err(Stop::NoReading), (0, 0, 4))]);
    Ok(())
}

// Nothing is taken at a fault: of a word and a byte that are read, of a word and a byte that are written.
#[test]
fn nothing_is_taken_at_a_fault(rt: HostRuntime) -> Result<(), Fail> {
    for (word, address) in [
        (0x4214, 0x0202),
        (0x4254, 0x0200),
        (0x4392, 0x0200),
        (0x43d2, 0x0204),
    ] {
        let mut board = board_of(rt.alloc(), &[word, address], &[5, 7])?;
        let pc = 0x4400;
        makes(
            &rt,
            &mut board,
            &[(Err(Stop::Bus { pc, address }), (0, 0, 0))],
        );
        assert_eq!(rt; board.cpu().reg(Reg::Pc), pc);
    }
    // mov #0x0206,sp; push.b r4 at the ports: SP stays where it was
    let mut board = board_of(rt.alloc(), &[0x4031, 0x0206, 0x1244], &[])?;
    let fault = Stop::Bus {
        pc: 0x4404,
        address: 0x0204,
    };
    makes(
        &rt,
        &mut board,
        &[(plain(2, None), (0, 0, 0)), (Err(fault), (0, 0, 0))],
    );
    assert_eq!(rt; board.cpu().reg(SP), 0x0206);
    Ok(())
}

#[test]
fn bytes_and_words_of_memory(rt: HostRuntime) -> Result<(), Fail> {
    // mov #0x1234,&0x5000; mov.b #1,&0x5001
    let code = [0x40b2, 0x1234, 0x5000, 0x43d2, 0x5001];
    let mut board = board_of(rt.alloc(), &code, &[])?;
    makes(
        &rt,
        &mut board,
        &[
            (plain(5, Some(0x5000)), (0, 0, 0)),
            (plain(4, Some(0x5001)), (0, 0, 0)),
        ],
    );
    for (address, word) in [(0x5000, Some(0x0134)), (0x5001, None), (0x23fe, None)] {
        assert_eq!(rt; board.word(address), word);
    }
    Ok(())
}

#[test]
fn words_that_are_no_instruction(rt: HostRuntime) -> Result<(), Fail> {
    for word in [0x1800, 0x0000] {
        let mut board = board_of(rt.alloc(), &[word], &[])?;
        let illegal = Stop::Illegal { pc: 0x4400, word };
        assert_eq!(rt; board.cost(), Err(illegal));
        makes(&rt, &mut board, &[(Err(illegal), (0, 0, 0))]);
    }
    Ok(())
}

#[test]
fn a_power_up_keeps_fram_alone(rt: HostRuntime) -> Result<(), Fail> {
    // mov &0x1c00,r4; mov #9,&0x0204; mov #3,&0x1c00; mov #3,&0x5000
    let code = [
        0x4214, 0x1c00, 0x40b2, 9, 0x0204, 0x40b2, 3, 0x1c00, 0x40b2, 3, 0x5000,
    ];
    let mut board = board_of(rt.alloc(), &code, &[])?;
    for (fill, accepted) in [(0, Some(9)), (65535, None), (1, Some(9)), (0, None)] {
        board.power_up(fill);
        let cpu = board.cpu();
        assert_eq!(rt; (cpu.reg(Reg::Pc), cpu.reg(Reg::Sr)), (0x4400, 0));
        assert_eq!(rt; (cpu.reg(SP), cpu.reg(R4)), (fill / 2 * 2, fill));
        assert_eq!(rt; step(&rt, &mut board), plain(3, None));
        // RAM holds the fill word, and so does OUTNUM: that decides whether the word is accepted
        assert_eq!(rt; board.cpu().reg(R4), fill);
        assert_eq!(rt; step(&rt, &mut board), sent(accepted));
        assert_eq!(rt; step(&rt, &mut board), plain(5, Some(0x1c00)));
        assert_eq!(rt; step(&rt, &mut board), plain(5, Some(0x5000)));
        assert_eq!(rt; board.word(0x5000), Some(3));
    }
    assert_eq!(rt; (board.accepted(), board.repeats()), (2, 2));
    Ok(())
}

#[test]
fn the_two_parts_of_a_step(rt: HostRuntime) -> Result<(), Fail> {
    // jmp $
    let mut board = board_of(rt.alloc(), &[0x3fff], &[])?;
    for _ in 0..5 {
        assert!(rt; board.accepted() < 1000 && board.repeats() < 1000);
        match board.next_step() {
            Ok(next) => assert_eq!(rt; board.perform(&next), plain(2, None)),
            Err(_) => assert!(rt; false),
        }
    }
    assert_eq!(rt; board.cpu().reg(Reg::Pc), 0x4400);
    Ok(())
}

/// A board with these words from 0x4400 on, whose events go to the code at 0x4420, and these events.
fn board_with(alloc: Global, words: &[u16], events: &[(u32, u16)]) -> Result<Board, AllocError>
    requires words { length words.now ≤ 64 }
    requires events { length events.now ≤ 64 }
{
    let mut image = Image::blank(alloc)?;
    for i in 0..words.len() {
        image.set(0x4400 + 2 * i as u16, words[i]);
    }
    image.set(0xfff0, 0x4421);
    image.set(0xfffe, 0x4400);
    Board::new(alloc, &image, &[], events)
}

/// A step that read EVENT once, and took this word if one was there.
fn heard(cycles: u32, word: Option<u16>) -> Result<Stepped, Stop> {
    Ok(Stepped {
        cycles,
        wrote: None,
        took: 0,
        accepted: None,
        heard: Heard::Once(word),
        sent: None,
    })
}

// An event is accepted behind the step that sets GIE, and RETI goes back; in the handler none is.
#[test]
fn an_event_is_accepted(rt: HostRuntime) -> Result<(), Fail> {
    // mov #0x2400,sp; bis #8,sr; jmp $; at 0x4420: mov &0x0206,r4, twice; reti
    let mut code = [0x4303; 64];
    code[0] = 0x4031;
    code[1] = 0x2400;
    code[2] = 0xd232;
    code[3] = 0x3fff;
    code[16] = 0x4214;
    code[17] = 0x0206;
    code[18] = 0x4214;
    code[19] = 0x0206;
    code[20] = 0x1300;
    let mut board = board_with(rt.alloc(), &code, &[(0, 7), (0, 8), (3, 9), (4, 10)])?;
    assert_eq!(rt; (board.arisen(), board.missed()), (0, 0));
    board.power_up(0);
    // the first takes the port, and the second is lost there
    assert_eq!(rt; (board.arisen(), board.missed()), (2, 1));
    assert_eq!(rt; step(&rt, &mut board), plain(2, None));
    assert_eq!(rt; step(&rt, &mut board), plain(1, None));
    assert_eq!(rt; board.cost(), Ok(6));
    // step 3 is the acceptance, behind which one more is lost, since the port is full until it is read
    assert_eq!(rt; step(&rt, &mut board), plain(6, None));
    assert_eq!(rt; (board.arisen(), board.missed()), (3, 2));
    let cpu = board.cpu();
    assert_eq!(rt;
        (cpu.reg(Reg::Pc), cpu.reg(Reg::Sr), cpu.reg(SP)),
        (0x4420, 0, 0x23fc)
    );
    // the read empties it, so that the next one finds room
    assert_eq!(rt; step(&rt, &mut board), heard(3, Some(7)));
    assert_eq!(rt;
        (board.arisen(), board.missed(), board.cpu().reg(R4)),
        (4, 2, 7)
    );
    assert_eq!(rt; step(&rt, &mut board), heard(3, Some(10)));
    assert_eq!(rt; step(&rt, &mut board), plain(5, None));
    let cpu = board.cpu();
    assert_eq!(rt;
        (cpu.reg(Reg::Pc), cpu.reg(Reg::Sr), cpu.reg(SP)),
        (0x4406, 8, 0x2400)
    );
    assert_eq!(rt; step(&rt, &mut board), plain(2, None));
    Ok(())
}

// Of two reads in one instruction the first takes the word, and a read of an empty port takes none.
#[test]
fn the_port_is_read(rt: HostRuntime) -> Result<(), Fail> {
    // cmp &0x0206,&0x0206; mov &0x0206,r4; mov #0x2402,sp; bis #8,sr
    let code = [
        0x9292, 0x0206, 0x0206, 0x4214, 0x0206, 0x4031, 0x2402, 0xd232,
    ];
    let mut board = board_with(rt.alloc(), &code, &[(0, 7), (4, 8)])?;
    board.power_up(0);
    let twice = Stepped {
        cycles: 6,
        wrote: None,
        took: 0,
        accepted: None,
        heard: Heard::Again(Some(7)),
        sent: None,
    };
    assert_eq!(rt; step(&rt, &mut board), Ok(twice));
    assert_eq!(rt; step(&rt, &mut board), heard(3, None));
    assert_eq!(rt; board.cpu().reg(R4), 0);
    assert_eq!(rt; step(&rt, &mut board), plain(2, None));
    assert_eq!(rt; step(&rt, &mut board), plain(1, None));
    // PC's place is behind the RAM
    let fault = Stop::Bus {
        pc: 0x4410,
        address: 0x2400,
    };
    assert_eq!(rt; step(&rt, &mut board), Err(fault));
    assert_eq!(rt; (board.arisen(), board.missed()), (2, 0));
    Ok(())
}

// A power-up loses what waits; an acceptance whose stores aren't to memory is a fault, of PC's place first.
#[test]
fn an_event_is_lost_or_refused(rt: HostRuntime) -> Result<(), Fail> {
    // mov #0x1c02,sp; bis #8,sr
    let code = [0x4031, 0x1c02, 0xd232];
    let mut board = board_with(rt.alloc(), &code, &[(1, 7), (3, 8)])?;
    board.power_up(0);
    assert_eq!(rt; step(&rt, &mut board), plain(2, None));
    board.power_up(0);
    assert_eq!(rt;
        (board.arisen(), board.missed(), board.heard()),
        (1, 1, Heard::Nothing)
    );
    assert_eq!(rt; step(&rt, &mut board), plain(2, None));
    assert_eq!(rt; step(&rt, &mut board), plain(1, None));
    // of the two places 0x1c00 and 0x1bfe the second is none
    let fault = Stop::Bus {
        pc: 0x4406,
        address: 0x1bfe,
    };
    assert_eq!(rt; step(&rt, &mut board), Err(fault));
    let cpu = board.cpu();
    assert_eq!(rt; (cpu.reg(Reg::Pc), cpu.reg(SP)), (0x4406, 0x1c02));
    assert_eq!(rt; board.cost(), Ok(6));
    Ok(())
}
