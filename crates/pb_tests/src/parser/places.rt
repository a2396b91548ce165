//! A program that uses every production, and the offset of the fault if one of its tokens is left out or is
//! there twice.

/// Resources and processes, both forms of each production, and an operator of each level.
pub(super) const TEXT: &[u8] = b"resource r = 3;
resource s = 0;
process p begin
  integer a, b;
  a := 1 - 2 * -(b) div 3 mod 4 + 5;
  if not a < b and 6 >= 7 or a <> b then print a else skip; begin skip end fi;
  while a = 8 do begin skip; print b end od;
  hold 1 of r, 2 of s do parbegin skip; print 9; skip parend od
end
process q begin if a > b then skip fi; print a <= b end
";

/// No fault: the tokens are a program still.
pub(super) const FINE: usize = 65_537;

/// For each token: the offset of the fault if it is left out, and if it is there twice.
///
/// The offset is that at which the first token starts with which the tokens so far begin no program, found by
/// a chart of all readings of the grammar.
pub(super) const PLACES: [[usize; 2]; 107] = [
    // resource
    [9, 9],
    // r
    [11, 11],
    // =
    [13, 13],
    // 3
    [14, 15],
    // ;
    [16, 16],
    // resource
    [25, 25],
    // s
    [27, 27],
    // =
    [29, 29],
    // 0
    [30, 31],
    // ;
    [32, 32],
    // process
    [40, 40],
    // p
    [42, 42],
    // begin
    [50, 56],
    // integer
    [59, 58],
    // a
    [59, 60],
    // ,
    [61, 61],
    // b
    [62, 63],
    // ;
    [66, 64],
    // a
    [68, 68],
    // :=
    [71, 71],
    // 1
    [FINE, 73],
    // -
    [75, FINE],
    // 2
    [77, 77],
    // *
    [FINE, 79],
    // -
    [FINE, FINE],
    // (
    [82, 101],
    // b
    [82, 83],
    // )
    [99, 84],
    // div
    [88, 88],
    // 3
    [90, 90],
    // mod
    [94, 94],
    // 4
    [96, 96],
    // +
    [98, 98],
    // 5
    [99, 100],
    // ;
    [103, 101],
    // if
    [106, 106],
    // not
    [FINE, FINE],
    // a
    [112, 112],
    // <
    [114, 114],
    // b
    [116, 116],
    // and
    [120, 120],
    // 6
    [122, 122],
    // >=
    [125, 125],
    // 7
    [127, 127],
    // or
    [130, 130],
    // a
    [132, 132],
    // <>
    [135, 135],
    // b
    [137, 137],
    // then
    [142, 142],
    // print
    [150, 148],
    // a
    [150, 150],
    // else
    [155, 155],
    // skip
    [159, 160],
    // ;
    [161, 161],
    // begin
    [172, 182],
    // skip
    [172, 172],
    // end
    [176, 176],
    // fi
    [289, 179],
    // ;
    [182, 180],
    // while
    [190, 188],
    // a
    [190, 190],
    // =
    [192, 192],
    // 8
    [194, 194],
    // do
    [197, 197],
    // begin
    [217, 227],
    // skip
    [207, 208],
    // ;
    [209, 209],
    // print
    [217, 215],
    // b
    [217, 217],
    // end
    [221, 221],
    // od
    [289, 224],
    // ;
    [227, 225],
    // hold
    [232, 232],
    // 1
    [234, 234],
    // of
    [237, 237],
    // r
    [238, 239],
    // ,
    [240, 240],
    // 2
    [242, 242],
    // of
    [245, 245],
    // s
    [247, 247],
    // do
    [250, 250],
    // parbegin
    [279, 295],
    // skip
    [263, 264],
    // ;
    [265, 265],
    // print
    [271, 271],
    // 9
    [272, 273],
    // ;
    [274, 274],
    // skip
    [279, 279],
    // parend
    [286, 286],
    // od
    [289, 289],
    // end
    [293, 293],
    // process
    [301, 301],
    // q
    [303, 303],
    // begin
    [309, 354],
    // if
    [314, 312],
    // a
    [314, 314],
    // >
    [316, 316],
    // b
    [318, 318],
    // then
    [323, 323],
    // skip
    [328, 328],
    // fi
    [345, 331],
    // ;
    [332, 332],
    // print
    [340, 338],
    // a
    [340, 340],
    // <=
    [343, 343],
    // b
    [345, 345],
    // end
    [344, 349],
];
