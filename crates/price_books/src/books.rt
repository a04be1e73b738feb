// The price books of a season: the list that is laid before a dealer, the most that would be paid, and what other dealers ask.
pub const OFFER: &str = "\
SPARE PARTS FOR SNOW GROOMERS: PRICES OFFERED, PER PIECE

part     what it is                           pieces      EUR
-------------------------------------------------------------
TS-1140  tiller shaft, left, 1140 mm              12   412.00
TS-1141  tiller shaft, right, 1140 mm             12   412.00
TS-1310  tiller shaft, centre, 1310 mm             6   498.50
BC-0620  blade cylinder, lift, 620 mm              8   355.20
BC-0455  blade cylinder, tilt, 455 mm              8   287.90
PU-2800  travel pump, 28 ccm                       4  1940.00
PU-1600  tiller pump, 16 ccm                       6   980.00
SE-0620  seal set for BC-0620                     40    18.75

Prices hold for orders of one season, delivered to the depot.
";

pub const OFFER_OF_MAY: &str = "\
SPARE PARTS FOR SNOW GROOMERS: PRICES OFFERED IN MAY, PER PIECE

TS-1140  tiller shaft, left, 1140 mm              12   418.00
TS-1141  tiller shaft, right, 1140 mm             12   418.00
";

pub const LIMITS: &str = "\
THE MOST WE WOULD PAY, PER PIECE

TS-1140  TS-1141                                        455.00
TS-1310                                                 540.00
BC-0620                                                 390.00
PU-2800                                                2150.00
";

pub const QUOTES: &str = "\
QUOTES OF OTHER DEALERS, PER PIECE

TS-1140  a dealer in the valley                         431.50
TS-1140  a dealer abroad, carriage paid                 428.00
PU-2800  a dealer in the valley                        2090.00
";
