//! Partitions at the ends of what they may be. The fields of each frame were written out by hand or
//! by Python from the table of replies, not by this crate; MACs are `hmac.new(key,
//! b"".join(frame[228:] for frame in frames), "sha256")`. Fields that a reply doesn't repeat aren't
//! zeros in the requests: each frame has a key_mac of its own, and so for the others.

use crate::tests::partitions::steps::{Scenario, Step};

#[rattlefmt::skip]
const LAST_BLOCK: &[Step] = &[
    (2, 512, 0x0000, 1), // PROGRAM_KEY with its result
    (2, 512, 0x0000, 1), // DATA_WRITE of the last block
    (3, 512, 0x0004, 1), // of it and the one behind it
    (1, 1024, 0x0000, 2), // DATA_READ of the last two blocks
];

/// The last block of a partition of 2 units.
#[rattlefmt::skip]
pub static CAPACITY_2: Scenario = Scenario {
    steps: LAST_BLOCK,
    requests: &[
        (0x90, [0x1111111111111111, 0x1111111111111111, 0x1111111111111111, 0x1111111111111111],
         0xc5, [0xd77d8b6b315d878a, 0x3325fb6217515010], 0x0a0000b5, 0x0bb5_0001_0db5_0001),
        (0x95, [0xac0806f8b3d9ec5c, 0x53a0e1eb6e06322f, 0xf57a1231d9961bae, 0x6ab3bf5219c9792a],
         0xc6, [0x14f99325e915405e, 0xd784a635bcb72a8f], 0x0a0000b6, 0x0bb6_0cb6_0db6_0005),
        (0x9a, [0x064041c2ebbd943a, 0xa6bb02b91402a54e, 0x9c1ccdf7644cf73b, 0x32d3c57c738abcfe],
         0x71, [0xc0a91c9474ae08ce, 0x8cfd045fd747ee9b], 0x00000000, 0x03ff_0001_0db7_0003),
        (0x9f, [0xd32f79c8384778f1, 0xc13a0bd1c1848981, 0x741bc2bb67a3630f, 0x9488c3c7f3a8c184],
         0xc8, [0xd7b0c1812d414a53, 0x8c4bfad52f34b113], 0x0a0000b8, 0x0bb8_0cb8_0db8_0005),
        (0xa4, [0xd2f0e37885830c98, 0x9d130d5077124847, 0x90bfcc3735779277, 0xa4b68d8afeca2e2d],
         0x72, [0x50a84b2cc453a5cf, 0x46ebdfb5137c409e], 0x00000001, 0x03ff_0002_0db9_0003),
        (0xa9, [0xbb349b18022cb709, 0x9ab444661dcc3d8c, 0x0c282b4f250e3a0f, 0x4e90811056e91b70],
         0x73, [0x4b4bb1329caa05e3, 0x1438d92abad6f960], 0x00000001, 0x03ff_0002_0dba_0003),
        (0xae, [0x82a01304c5fd4aef, 0xde241e8bb7279112, 0x6c7353e7298e8ee8, 0x71256ca621bcff64],
         0xcb, [0x0f7772af58980756, 0x3801b4222bdb7c52], 0x0a0000bb, 0x0bbb_0cbb_0dbb_0005),
        (0xb3, [0xfa1dc414d70e6ba1, 0xc94daf32d7f76825, 0xed5528d04b3d7c60, 0x7c8d07b1a638e9f7],
         0xcc, [0xeb4f993faac37d88, 0x9e7e50afb7b1c1e3], 0x0a0000bc, 0x03fe_0002_0dbc_0004),
    ],
    replies: &[
        (0x00, [0xbff75fd505e63f82, 0xebda9278dc612823, 0xf12d64799cf2b5a3, 0x1af498ba900f45e7],
         0x00, [0x0000000000000000, 0x0000000000000000], 0x00000000, 0x0000_0001_0000_0100),
        (0x00, [0x8ec63df79cf1e992, 0xc4eb6c5c4b725918, 0x25813469f14f1005, 0xcd6304b4cbdc55ac],
         0x00, [0x0000000000000000, 0x0000000000000000], 0x00000001, 0x03ff_0001_0000_0300),
        (0x00, [0x5ae83744d1cc7b78, 0x85cf07a2fc9c42c1, 0x0d7e8e99af86123f, 0x24fd351e5dc8ff57],
         0x00, [0x0000000000000000, 0x0000000000000000], 0x00000001, 0x03ff_0002_0004_0300),
        (0x00, [0x0000000000000000, 0x0000000000000000, 0x0000000000000000, 0x0000000000000000],
         0x00, [0xeb4f993faac37d88, 0x9e7e50afb7b1c1e3], 0x00000000, 0x03fe_0002_0000_0400),
        (0x00, [0x465e2af99c88a3f4, 0x67413ea5e3b63d66, 0xb3b0b8fa743a76a1, 0x3eedbb94fd2cadfc],
         0x71, [0xeb4f993faac37d88, 0x9e7e50afb7b1c1e3], 0x00000000, 0x03fe_0002_0000_0400),
    ],
};

/// The last block of a partition of 128 units.
#[rattlefmt::skip]
pub static CAPACITY_128: Scenario = Scenario {
    steps: LAST_BLOCK,
    requests: &[
        (0xb8, [0x1111111111111111, 0x1111111111111111, 0x1111111111111111, 0x1111111111111111],
         0xcd, [0x91c89e53d6dd1d95, 0x12c6ab4d7ee80856], 0x0a0000bd, 0x0bbd_0001_0dbd_0001),
        (0xbd, [0x1ee69a7a858eabab, 0x785db708e5c6ac49, 0x04210799b6082c44, 0x13d2078a1cb0bf7a],
         0xce, [0xb9f2d64b6382f8fa, 0x5dfe5342746f9073], 0x0a0000be, 0x0bbe_0cbe_0dbe_0005),
        (0xc2, [0x935df6f329b483d1, 0xb34b5be98cbdd547, 0xcf1d65765a8a1b12, 0xc460e8964aeebab5],
         0x71, [0xd8acce8d0f275e82, 0x322e8e894aa08bf3], 0x00000000, 0xffff_0001_0dbf_0003),
        (0xc7, [0xdbff872ea12789c1, 0x1e794bca36859bb2, 0xc651f67a12bf27a9, 0x50d28a4e081b10d1],
         0xd0, [0x111caef6b94a67fd, 0x98b50f96e35b320a], 0x0a0000c0, 0x0bc0_0cc0_0dc0_0005),
        (0xcc, [0x99f88828af9ab8f9, 0x94aa7e9a0de0385f, 0x34a9d1be5d49fe3a, 0x600321b5f04da961],
         0x72, [0x365587435d948406, 0x76cf8bcd4bb7236e], 0x00000001, 0xffff_0002_0dc1_0003),
        (0xd1, [0x336be341af76b192, 0x41a07e28dffa114d, 0xbecae4af3ee023b1, 0x6cc3d5ec1486a596],
         0x73, [0xdbffbcb078c25d5d, 0x6b3b2c3e26203eb8], 0x00000001, 0xffff_0002_0dc2_0003),
        (0xd6, [0xf33b09d397e00a3b, 0x31a16220fec454a1, 0xcec72f6b72a0c32f, 0x906679ab16ad5fd6],
         0xd3, [0xe5d6b4c66a4cd210, 0x116f97f6ff4084d2], 0x0a0000c3, 0x0bc3_0cc3_0dc3_0005),
        (0xdb, [0x34748b3612b8cc88, 0x0a545d897b383d5b, 0x3ee8dbaef9e315ab, 0x6bc81247fccf44e6],
         0xd4, [0xf547749e866e9e76, 0x8d0e8a211c97e2b8], 0x0a0000c4, 0xfffe_0002_0dc4_0004),
    ],
    replies: &[
        (0x00, [0xbff75fd505e63f82, 0xebda9278dc612823, 0xf12d64799cf2b5a3, 0x1af498ba900f45e7],
         0x00, [0x0000000000000000, 0x0000000000000000], 0x00000000, 0x0000_0001_0000_0100),
        (0x00, [0x30150d2c5d43aad7, 0x9b735a3e0f9424d3, 0x89874d915d50668d, 0x0a183fa0594363c8],
         0x00, [0x0000000000000000, 0x0000000000000000], 0x00000001, 0xffff_0001_0000_0300),
        (0x00, [0xd396a552fa95067d, 0x1f226b18e3df7257, 0xd2be7d382b0f27a3, 0x0cd87ac4b34b3b51],
         0x00, [0x0000000000000000, 0x0000000000000000], 0x00000001, 0xffff_0002_0004_0300),
        (0x00, [0x0000000000000000, 0x0000000000000000, 0x0000000000000000, 0x0000000000000000],
         0x00, [0xf547749e866e9e76, 0x8d0e8a211c97e2b8], 0x00000000, 0xfffe_0002_0000_0400),
        (0x00, [0xe2fa2a9c0609f83c, 0xaa98dd72489ca427, 0xb31fe4dc5c588223, 0xebf24448172bd372],
         0x71, [0xf547749e866e9e76, 0x8d0e8a211c97e2b8], 0x00000000, 0xfffe_0002_0000_0400),
    ],
};

/// A partition whose counter is 0xFFFF_FFFE.
#[rattlefmt::skip]
pub static LAST_COUNTER: Scenario = Scenario {
    steps: &[
        (2, 512, 0x0000, 1), // DATA_WRITE by the last counter but one
        (2, 512, 0x0080, 1), // by the last counter
        (1, 512, 0x0000, 1), // GET_WRITE_COUNTER
        (1, 512, 0x0000, 1), // DATA_READ
    ],
    requests: &[
        (0xe0, [0xaeb8018cb7e12af8, 0x9246924a348566d5, 0xab4ee1b3f50c13d0, 0x62a17a8f71cb2919],
         0x74, [0x6e4adf4775780329, 0x59d345b04797c584], 0xfffffffe, 0x0031_0001_0dc5_0003),
        (0xe5, [0xb283c422c93aa461, 0xae6839525396b9dd, 0xa22fe08d61ae9c18, 0x6afe88d7e471cb2c],
         0xd6, [0xccbe5ac9185587d5, 0xbf909b20778a289a], 0x0a0000c6, 0x0bc6_0cc6_0dc6_0005),
        (0xea, [0xe74a189c9e265812, 0xf383bedc2dc2ab40, 0x354558fae657dc37, 0x2fc82ee7e372ccca],
         0x75, [0x09f6d09bac98ab47, 0xcc51ce27b3f4e6a3], 0xffffffff, 0x0031_0001_0dc7_0003),
        (0xef, [0xd9b9733df27ce9d3, 0x55e55cfee2a5f343, 0xb2e97c5a4be6f387, 0x8739ad6644161b0c],
         0xd8, [0x25ba2f2744ebcf6e, 0xeeb15bb3f1d6fc86], 0x0a0000c8, 0x0bc8_0cc8_0dc8_0005),
        (0xf4, [0x889f21be5f5fa45d, 0xd84dd0051f203869, 0xd7b3e43e0e4c2e75, 0xe4420c3cdc756656],
         0xd9, [0x4200bad7461fe7d6, 0x6183f36b26028c57], 0x0a0000c9, 0x0bc9_0001_0dc9_0002),
        (0xf9, [0x55925b3b55b9e8b3, 0xd8714fae6a0a0c0d, 0xd44666fef715f97d, 0x0805043018059af5],
         0xda, [0x3b4244f0b34cfe67, 0xed6e644335952714], 0x0a0000ca, 0x0031_0001_0dca_0004),
    ],
    replies: &[
        (0x00, [0x1d7bbe04b909fef5, 0xb82136d70396d4f8, 0xc251bade7f322171, 0xeaa10905afae2b5d],
         0x00, [0x0000000000000000, 0x0000000000000000], 0xffffffff, 0x0031_0001_0000_0300),
        (0x00, [0x4e1cdb33c25fb4e3, 0xea83b485848b4d8c, 0x0750060e83f2c412, 0x918e2c5dc608cefe],
         0x00, [0x0000000000000000, 0x0000000000000000], 0xffffffff, 0x0031_0001_0080_0300),
        (0x00, [0xa969c330ff0c6da6, 0x7becd35c5adaabf8, 0x159b578ae2083354, 0x562acd14e70dca50],
         0x00, [0x4200bad7461fe7d6, 0x6183f36b26028c57], 0xffffffff, 0x0000_0001_0000_0200),
        (0x00, [0x017c6c22fcc98ec8, 0x6fa6e644e6e977eb, 0x1ad1f22824fee28d, 0x48cf5acd14534101],
         0x74, [0x3b4244f0b34cfe67, 0xed6e644335952714], 0x00000000, 0x0031_0001_0000_0400),
    ],
};
