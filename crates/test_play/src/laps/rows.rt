//! Printed by `tools/laps.py rows`, and laid out by `rt fmt`: scripts with laps and crosses, and
//! what is reported of them.

use super::Row;
use crate::films;

pub const LAPS: [Row; 21] = [
    Row {
        case: "a lap onto silence",
        film: &films::SOUND_AND_SILENCE,
        slope: 4194304,
        step: 0,
        script: "lane\nopen 0\nlap 0 32\nread 0 32\n",
        report: &[
            ("lane 0\nopen 0 ok\nlap 0 at 32\nread 0 frames 1 1 32 ", 1),
            ("0000", 16),
            ("00e8", 16),
            ("\n", 1),
        ],
    },
    Row {
        case: "a lap from the last two frames of a link",
        film: &films::SOUND_AND_SILENCE,
        slope: 4194304,
        step: 0,
        script: "lane\nopen 0\nseek 0 30\nlap 0 32\nread 0 32\n",
        report: &[
            (
                "lane 0\nopen 0 ok\nseek 0 at 30\nlap 0 at 32\n\
                read 0 frames 1 1 32 00e800e8",
                1,
            ),
            ("0000", 30),
            ("\n", 1),
        ],
    },
    Row {
        case: "a lap onto more channels",
        film: &films::ONTO_STEREO,
        slope: 4194304,
        step: 0,
        script: "lane\nopen 0\nlap 0 32\nread 0 32\n",
        report: &[
            ("lane 0\nopen 0 ok\nlap 0 at 32\nread 0 frames 1 2 32 ", 1),
            ("00000000", 16),
            ("00e000f8", 16),
            ("\n", 1),
        ],
    },
    Row {
        case: "a lap onto fewer channels",
        film: &films::FROM_STEREO,
        slope: 4194304,
        step: 0,
        script: "lane\nopen 0\nlap 0 32\nread 0 32\n",
        report: &[
            ("lane 0\nopen 0 ok\nlap 0 at 32\nread 0 frames 1 1 32 ", 1),
            ("0000", 16),
            ("00e8", 16),
            ("\n", 1),
        ],
    },
    Row {
        case: "a seek behind a lap",
        film: &films::SOUND_AND_SILENCE,
        slope: 4194304,
        step: 0,
        script: "lane\nopen 0\nlap 0 32\nseek 0 32\nread 0 32\n",
        report: &[
            (
                "lane 0\nopen 0 ok\nlap 0 at 32\nseek 0 at 32\n\
                read 0 frames 1 1 32 ",
                1,
            ),
            ("0000", 32),
            ("\n", 1),
        ],
    },
    Row {
        case: "a lap behind a lap",
        film: &films::SOUND_AND_SILENCE,
        slope: 4194304,
        step: 0,
        script: "lane\nopen 0\nlap 0 32\nlap 0 32\nread 0 32\n",
        report: &[
            (
                "lane 0\nopen 0 ok\nlap 0 at 32\nlap 0 at 32\n\
                read 0 frames 1 1 32 ",
                1,
            ),
            ("0000", 16),
            ("00ee", 16),
            ("\n", 1),
        ],
    },
    Row {
        case: "a lap past the last frame",
        film: &films::SOUND_AND_SILENCE,
        slope: 4194304,
        step: 0,
        script: "lane\nopen 0\nlap 0 65\ntell 0\n",
        report: &[("lane 0\nopen 0 ok\nlap 0 invalid total 64\ntell 0 0\n", 1)],
    },
    Row {
        case: "a lap past the last frame keeps a patch",
        film: &films::SOUND_AND_SILENCE,
        slope: 4194304,
        step: 0,
        script: "lane\nopen 0\nlap 0 32\nlap 0 65\ntell 0\nread 0 32\n",
        report: &[
            (
                "lane 0\nopen 0 ok\nlap 0 at 32\nlap 0 invalid total 64\n\
                tell 0 32\nread 0 frames 1 1 32 ",
                1,
            ),
            ("0000", 16),
            ("00e8", 16),
            ("\n", 1),
        ],
    },
    Row {
        case: "a patch over three reads",
        film: &films::SOUND_AND_SILENCE,
        slope: 4194304,
        step: 0,
        script: "lane\nopen 0\nlap 0 32\nread 0 10\nread 0 10\ntell 0\n\
                read 0 65536\n",
        report: &[
            ("lane 0\nopen 0 ok\nlap 0 at 32\nread 0 frames 1 1 10 ", 1),
            ("0000", 10),
            ("\nread 0 frames 1 1 10 ", 1),
            ("0000", 6),
            ("00e8", 4),
            ("\ntell 0 52\nread 0 frames 1 1 12 ", 1),
            ("00e8", 12),
            ("\n", 1),
        ],
    },
    Row {
        case: "a lap in the middle of a patch",
        film: &films::SOUND_AND_SILENCE,
        slope: 4194304,
        step: 0,
        script: "lane\nopen 0\nlap 0 32\nread 0 20\nlap 0 40\nread 0 32\n",
        report: &[
            ("lane 0\nopen 0 ok\nlap 0 at 32\nread 0 frames 1 1 20 ", 1),
            ("0000", 16),
            ("00e8", 4),
            ("\nlap 0 at 40\nread 0 frames 1 1 24 ", 1),
            ("00ee", 12),
            ("0000", 12),
            ("\n", 1),
        ],
    },
    Row {
        case: "a patch of two frames, and a link behind it",
        film: &films::SOUND_AND_SILENCE,
        slope: 4194304,
        step: 0,
        script: "lane\nopen 0\nseek 0 16\nlap 0 30\nread 0 32\nread 0 32\n",
        report: &[
            (
                "lane 0\nopen 0 ok\nseek 0 at 16\nlap 0 at 30\n\
                read 0 frames 0 1 2 00e000e0\nread 0 frames 1 1 32 ",
                1,
            ),
            ("0000", 32),
            ("\n", 1),
        ],
    },
    Row {
        case: "a lap before a gap",
        film: &films::PAGE_MISSING,
        slope: 4194304,
        step: 0,
        script: "lane\nopen 0\nlap 0 32\ntell 0\nread 0 32\nread 0 32\n",
        report: &[
            (
                "lane 0\nopen 0 ok\nlap 0 at 32\ntell 0 32\nread 0 gap lost\n\
                read 0 frames 0 1 32 ",
                1,
            ),
            ("0000", 16),
            ("00e0", 16),
            ("\n", 1),
        ],
    },
    Row {
        case: "a lap from a gap, whose old side is silent",
        film: &films::PAGE_MISSING,
        slope: 4194304,
        step: 0,
        script: "lane\nopen 0\nseek 0 32\nlap 0 0\nread 0 32\n",
        report: &[
            (
                "lane 0\nopen 0 ok\nseek 0 at 32\nlap 0 at 0\n\
                read 0 frames 0 1 32 ",
                1,
            ),
            ("0000", 16),
            ("00f8", 16),
            ("\n", 1),
        ],
    },
    Row {
        case: "a lap over a gap",
        film: &films::PAGE_MISSING,
        slope: 4194304,
        step: 0,
        script: "lane\nopen 0\nseek 0 20\nlap 0 33\nread 0 32\nread 0 1\n",
        report: &[
            (
                "lane 0\nopen 0 ok\nseek 0 at 20\nlap 0 at 33\n\
                read 0 frames 0 1 31 ",
                1,
            ),
            ("00e8", 12),
            ("0000", 3),
            ("00f8", 16),
            ("\nread 0 end\n", 1),
        ],
    },
    Row {
        case: "a lap to the end",
        film: &films::SOUND_AND_SILENCE,
        slope: 4194304,
        step: 0,
        script: "lane\nopen 0\nlap 0 64\ntell 0\nread 0 1\n",
        report: &[("lane 0\nopen 0 ok\nlap 0 at 64\ntell 0 64\nread 0 end\n", 1)],
    },
    Row {
        case: "a lap from the end",
        film: &films::SOUND_AND_SILENCE,
        slope: 4194304,
        step: 0,
        script: "lane\nopen 0\nseek 0 64\nlap 0 0\nread 0 32\n",
        report: &[
            (
                "lane 0\nopen 0 ok\nseek 0 at 64\nlap 0 at 0\n\
                read 0 frames 0 1 32 ",
                1,
            ),
            ("0000", 16),
            ("00f8", 16),
            ("\n", 1),
        ],
    },
    Row {
        case: "a lap onto larger blocks",
        film: &films::LARGER_BLOCKS,
        slope: 8388608,
        step: 500,
        script: "lane\nopen 0\nseek 0 8\nlap 0 40\nread 0 64\n",
        report: &[
            (
                "lane 0\nopen 0 ok\nseek 0 at 8\nlap 0 at 40\n\
                read 0 frames 1 1 64 \
                effb71fbf4fa77faf9f97bf9fef880f8fbf77cf7fef680f602f683f505f587f4\
                09f48bf30df38ff210f293f115f197f0f2cff3cff4cff6cff7cff8cffacffbcf",
                1,
            ),
            ("cdcf", 17),
            ("cecf", 5),
            ("cfcfcfcfd4e795e757e718e7dae69be65de61ee6\n", 1),
        ],
    },
    Row {
        case: "a lap onto smaller blocks",
        film: &films::LARGER_BLOCKS,
        slope: 8388608,
        step: 500,
        script: "lane\nopen 0\nseek 0 60\nlap 0 4\nread 0 64\n",
        report: &[
            (
                "lane 0\nopen 0 ok\nseek 0 at 60\nlap 0 at 4\n\
                read 0 frames 0 1 28 \
                a5fbaafaaff9b4f8b6f7baf6bef5c3f4c8f3ccf2d1f1d6f0",
                1,
            ),
            ("abcf", 16),
            ("\n", 1),
        ],
    },
    Row {
        case: "a lap within a link of larger blocks",
        film: &films::LARGER_BLOCKS,
        slope: 8388608,
        step: 500,
        script: "lane\nopen 0\nseek 0 60\nlap 0 90\nread 0 68\n",
        report: &[(
            "lane 0\nopen 0 ok\nseek 0 at 60\nlap 0 at 90\n\
                read 0 frames 1 1 68 \
                efcff0cff1cff1cfcfcfcfcfb8e779e73ae7fbe6bce67de63ee600e6c1e582e5\
                43e504e5c5e486e447e408e4cae38be34ce30de3cee290e251e212e2d3e194e1\
                56e117e1d8e099e08ce04ee04de08ae0c7e004e141e17ee1bae1f7e134e271e2\
                ade2eae227e364e3a0e3dde31ae456e493e4cfe40ce548e585e5c1e5fee53ae6\
                87e6c5e603e741e7\n",
            1,
        )],
    },
    Row {
        case: "a lap from the end, which is of larger blocks",
        film: &films::LARGER_BLOCKS,
        slope: 8388608,
        step: 500,
        script: "lane\nopen 0\nseek 0 160\nlap 0 32\nread 0 68\n",
        report: &[(
            "lane 0\nopen 0 ok\nseek 0 at 160\nlap 0 at 32\n\
                read 0 frames 1 1 68 \
                d9ff5cffe0fe63fee6fd6afdedfc70fcf4fb77fbfbfa7efa02fa85f909f98df8\
                10f894f718f79cf61ff6a3f527f5abf42ff4b3f337f3bbf23ff2c3f147f1cbf0\
                2dd02ed02fd030d032d033d034d036d037d038d03ad03bd03dd03ed03fd041d0\
                42d044d045d047d048d04ad04bd04dd04fd050d052d053d055d057d058d05ad0\
                d4e795e757e718e7\n",
            1,
        )],
    },
    Row {
        case: "two lanes, each with its own cursor",
        film: &films::SOUND_AND_SILENCE,
        slope: 4194304,
        step: 0,
        script: "lane\nopen 0\nlap 0 32\nread 0 32\nlane\nopen 0\nseek 0 32\n\
                read 0 32\n",
        report: &[
            ("lane 0\nopen 0 ok\nlap 0 at 32\nread 0 frames 1 1 32 ", 1),
            ("0000", 16),
            ("00e8", 16),
            (
                "\nlane 1\nopen 0 ok\nseek 0 at 32\nread 0 frames 1 1 32 ",
                1,
            ),
            ("0000", 32),
            ("\n", 1),
        ],
    },
];

pub const CROSSES: [Row; 6] = [
    Row {
        case: "a cross, and one of a cursor with itself",
        film: &films::SOUND_AND_SILENCE,
        slope: 4194304,
        step: 0,
        script: "lane\nopen 0\nopen 1\nseek 1 32\ncross 0 1\nread 1 32\ntell 0\n\
                read 0 32\ncross 0 0\n",
        report: &[
            (
                "lane 0\nopen 0 ok\nopen 1 ok\nseek 1 at 32\ncross 0 1 ok\n\
                read 1 frames 1 1 32 ",
                1,
            ),
            ("0000", 16),
            ("00e8", 16),
            ("\ntell 0 0\nread 0 frames 0 1 32 ", 1),
            ("0000", 16),
            ("00e0", 16),
            ("\ncross 0 0 ok\n", 1),
        ],
    },
    Row {
        case: "a cross of a cursor with itself keeps its patch",
        film: &films::SOUND_AND_SILENCE,
        slope: 4194304,
        step: 0,
        script: "lane\nopen 0\nlap 0 32\ncross 0 0\nread 0 32\n",
        report: &[
            (
                "lane 0\nopen 0 ok\nlap 0 at 32\ncross 0 0 ok\n\
                read 0 frames 1 1 32 ",
                1,
            ),
            ("0000", 16),
            ("00e8", 16),
            ("\n", 1),
        ],
    },
    Row {
        case: "a cross takes the patch of the old cursor, and its own is gone",
        film: &films::SOUND_AND_SILENCE,
        slope: 4194304,
        step: 0,
        script: "lane\nopen 0\nopen 1\nlap 0 32\nseek 1 20\nlap 1 32\ncross 0 1\n\
                read 1 32\nread 0 32\n",
        report: &[
            (
                "lane 0\nopen 0 ok\nopen 1 ok\nlap 0 at 32\nseek 1 at 20\n\
                lap 1 at 32\ncross 0 1 ok\nread 1 frames 1 1 32 ",
                1,
            ),
            ("0000", 16),
            ("00ee", 16),
            ("\nread 0 frames 1 1 32 ", 1),
            ("0000", 16),
            ("00e8", 16),
            ("\n", 1),
        ],
    },
    Row {
        case: "a cross onto more channels",
        film: &films::ONTO_STEREO,
        slope: 8388608,
        step: 500,
        script: "lane\nopen 3\nopen 4\nseek 3 4\nseek 4 40\ncross 3 4\n\
                read 4 32\nread 3 32\n",
        report: &[
            (
                "lane 0\nopen 3 ok\nopen 4 ok\nseek 3 at 4\nseek 4 at 40\n\
                cross 3 4 ok\nread 4 frames 1 2 24 \
                baf7baf7c0f6c0f6c6f5c6f5cbf4ccf4d1f3d2f3d7f2d8f2dcf1def1e2f0e4f0\
                b4cfb7cfb5cfb8cfb5cfbacfb6cfbbcfabcfbccfabcfbecfaacfbfcfaacfc1cf\
                aacfc2cfabcfc4cfabcfc5cfabcfc7cfabcfc8cfabcfcacfabcfcccfabcfcdcf\n\
                read 3 frames 0 1 28 \
                a5fbaafab0f9b5f8baf7c0f6c5f5cbf4d0f3d6f2dbf1e1f0",
                1,
            ),
            ("abcf", 6),
            ("aacf", 3),
            ("abcf", 7),
            ("\n", 1),
        ],
    },
    Row {
        case: "a cross to the end",
        film: &films::SOUND_AND_SILENCE,
        slope: 4194304,
        step: 0,
        script: "lane\nopen 0\nopen 1\nseek 1 64\ncross 0 1\ntell 1\nread 1 1\n\
                read 0 32\n",
        report: &[
            (
                "lane 0\nopen 0 ok\nopen 1 ok\nseek 1 at 64\ncross 0 1 ok\n\
                tell 1 64\nread 1 end\nread 0 frames 0 1 32 ",
                1,
            ),
            ("0000", 16),
            ("00e0", 16),
            ("\n", 1),
        ],
    },
    Row {
        case: "a cross of cursors that are closed",
        film: &films::SOUND_AND_SILENCE,
        slope: 4194304,
        step: 0,
        script: "lane\nopen 0\ncross 0 1\ncross 1 0\ncross 1 1\nclose 0\n\
                cross 0 0\nlap 0 32\n",
        report: &[(
            "lane 0\nopen 0 ok\ncross 0 1 no cursor\ncross 1 0 no cursor\n\
                cross 1 1 no cursor\nclose 0 ok\ncross 0 0 no cursor\n\
                lap 0 32 no cursor\n",
            1,
        )],
    },
];
