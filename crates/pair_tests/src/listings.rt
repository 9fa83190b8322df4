//! Two programs by hand: a sender that emits each reading, and a listener that sums the words in its ring.

/// `task a { emit(sense()); transition_to(a); }`: its commit sends the word until an acknowledgement is above its number.
pub const SENDER: &'static str =
    ".org 0x4500\nboot: cmp #1,&0x4404\njne start\nbr #commit\nstart: cmp #-1,&0x440E\n\
    jne cs\njmp $\ncs: add #1,&0x440E\nmov #0,&0x4406\nmov #0,&0x4408\nmov #0x2400,sp\n\
    br #task\ntask: mov &0x0200,r4\nmov r4,r5\nmov &0x4408,r6\nmov r6,r4\nadd r6,r4\n\
    mov r5,0x4420(r4)\nadd #1,r6\nmov r6,&0x4408\nmov #0,&0x4402\nmov &0x440A,&0x440C\n\
    mov #1,&0x4404\nbr #commit\ncommit: mov &0x440C,r7\nmov &0x4408,r4\ncmp #0,r4\njeq csd\n\
    mov #0x4420,r5\nst: mov r7,&0x0202\nmov @r5,&0x0204\nmov &0x0208,r6\nsub r7,r6\n\
    cmp #1,r6\njl st\nadd #2,r5\nadd #1,r7\nsub #1,r4\njne st\ncsd: mov &0x4402,&0x4400\n\
    mov r7,&0x440A\nmov #0,&0x4404\nbr #start\n.org 0xFFFE\n.word boot\n";

/// The map of the sender.
pub const SENDER_MAP: &'static str =
    "map\nbound 640\nwords 4400 4402 4404 4406 4408 440A 440C 440E\nlist 4410 0\n\
    emits 4420 1\nversions 4422 0\ncopies 4422 0\ntask a\nend\n";

/// `task b { s = s + next_event(); transition_to(b); }`: its handler takes a packet whose number is HEAD, where the ring has room, and answers
/// HEAD.
pub const LISTENER: &'static str =
    ".org 0x4500\nboot: mov #0x2400,sp\nbis #8,sr\ncmp #1,&0x4404\njne start\nbr #commit\n\
    start: cmp #-1,&0x440E\njne cs\njmp $\ncs: add #1,&0x440E\nmov #0,&0x4406\n\
    mov #0,&0x4408\nmov #0,&0x4414\nmov &0x44A0,&0x44A2\nbr #task\ntask: mov &0x4412,r5\n\
    add &0x4414,r5\ncmp &0x4410,r5\njeq none\nand #63,r5\nadd r5,r5\nmov 0x4420(r5),r5\n\
    mov r5,&0x4418\nadd #1,&0x4414\njmp got\nnone: mov #0,&0x4418\nmov #0,r5\n\
    got: add r5,&0x44A2\nmov #0,&0x4402\nmov #0x44A0,&0x441A\nmov #0x44A2,&0x441C\n\
    mov #1,&0x441E\nadd #1,&0x4406\nmov &0x440A,&0x440C\nmov &0x4412,r4\nadd &0x4414,r4\n\
    mov r4,&0x4416\nmov #1,&0x4404\nbr #commit\ncommit: mov &0x44A2,&0x44A0\n\
    mov &0x440C,r7\nmov &0x4416,&0x4412\nmov &0x4402,&0x4400\nmov r7,&0x440A\n\
    mov #0,&0x4404\nbr #start\nhand: push r4\npush r5\nmov &0x020A,r4\nmov &0x0206,r5\n\
    cmp &0x4410,r4\njne answer\nsub &0x4412,r4\ncmp #64,r4\njeq answer\nmov &0x4410,r4\n\
    and #63,r4\nadd r4,r4\nmov r5,0x4420(r4)\nadd #1,&0x4410\nanswer: mov &0x4410,&0x020C\n\
    mov @sp+,r5\nmov @sp+,r4\nreti\n.org 0xFFF0\n.word hand\n.org 0xFFFE\n.word boot\n";

/// The map of the listener.
pub const LISTENER_MAP: &'static str =
    "map\nbound 872\nwords 4400 4402 4404 4406 4408 440A 440C 440E\nlist 441A 1\n\
    emits 4420 0\nversions 4420 0\ncopies 44A2 1\nring 4410 4412 4414 4416 4418 4420 64\n\
    scalar s unsigned 44A0\ntask b\nprivate s\nend\n";
